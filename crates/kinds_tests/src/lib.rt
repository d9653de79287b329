// Tests of the compiled kinds, on amounts at their limits.
#![tactic(auto)]

#[cfg(test)]
mod tests {
    use kinds::{AmountRefusal, Bundle, Count, EngineAmount, Frames, Kind, Windows, engine_amount};
    use std::test::Fail;

    // The number of the refusal, or 0, which no refusal has: one column of numbers is plain to read.
    fn number_of(refused: Option<AmountRefusal>) -> u32 {
        refused.map_or(0, |refusal| refusal.number())
    }

    #[test]
    fn refusals(rt: HostRuntime) {
        assert_eq!(rt; number_of(Count::try_from(1_000_000_000).err()), 0);
        assert_eq!(rt; number_of(Count::try_from(1_000_000_001).err()), 2);
        assert_eq!(rt; number_of(Frames::from_run(255, 256).err()), 0);
        assert_eq!(rt; number_of(Frames::from_run(255, 257).err()), 3);
        assert_eq!(rt; number_of(Frames::from_run(9, 9).err()), 3);
        assert_eq!(rt; number_of(Windows::from_run(0, 128).err()), 0);
        assert_eq!(rt; number_of(Windows::from_run(0, 129).err()), 3);
        assert_eq!(rt; number_of(Windows::from_run(9, 3).err()), 3);
    }

    #[test]
    fn counts_add(rt: HostRuntime) -> Result<(), Fail> {
        let most = Count::try_from(999_999_999)?;
        let one = Count::try_from(1)?;
        let top = most.join(&one);
        assert_eq!(rt; top.value(), 1_000_000_000);
        assert!(rt; !top.fits(&one));
        assert_eq!(rt; top.join(&one).value(), 0);
        assert_eq!(rt; top.remainder(&most).value(), 1);
        assert_eq!(rt; one.remainder(&top).value(), 0);
        Ok(())
    }

    #[test]
    fn frames_unite(rt: HostRuntime) -> Result<(), Fail> {
        let low = Frames::from_run(3, 21)?;
        assert!(rt; !low.has(2));
        assert!(rt; low.has(3));
        assert!(rt; low.has(20));
        assert!(rt; !low.has(21));
        let high = Frames::from_run(250, 256)?;
        let both = low.join(&high);
        assert!(rt; both.has(255));
        assert_eq!(rt; both.runs().as_slice().len(), 2);
        assert!(rt; both.holds(&high));
        assert!(rt; both.remainder(&high).same(&low));
        Ok(())
    }

    #[test]
    fn windows_touch(rt: HostRuntime) -> Result<(), Fail> {
        let first = Windows::from_run(0, 10)?;
        let second = Windows::from_run(10, 20)?;
        let both = first.join(&second);
        assert_eq!(rt; both.runs().len(), 1);
        assert!(rt; both.same(&Windows::from_run(0, 20)?));
        assert!(rt; !first.fits(&Windows::from_run(9, 20)?));
        let middle = both.remainder(&Windows::from_run(4, 6)?);
        assert_eq!(rt; middle.runs().len(), 2);
        assert!(rt; middle.has(3));
        assert!(rt; !middle.has(4));
        assert!(rt; !middle.has(5));
        assert!(rt; middle.has(6));
        Ok(())
    }

    #[test]
    fn every_other_second(rt: HostRuntime) -> Result<(), Fail> {
        let mut evens = Windows::empty();
        let mut odds = Windows::empty();
        for k in 0..64 {
            evens = evens.join(&Windows::from_run(2 * k, 2 * k + 1)?);
            odds = odds.join(&Windows::from_run(2 * k + 1, 2 * k + 2)?);
        }
        assert_eq!(rt; evens.runs().len(), 64);
        assert!(rt; evens.fits(&odds));
        assert!(rt; evens.join(&odds).same(&Windows::from_run(0, 128)?));
        Ok(())
    }

    #[test]
    fn bundles_ask_both_sides(rt: HostRuntime) -> Result<(), Fail> {
        let x: EngineAmount = engine_amount(
            Count::try_from(2)?,
            Frames::from_run(0, 8)?,
            Windows::from_run(0, 60)?,
        );
        let y: EngineAmount = engine_amount(
            Count::try_from(2)?,
            Frames::from_run(8, 9)?,
            Windows::from_run(59, 61)?,
        );
        assert!(rt; !x.fits(&y));
        assert!(rt; x.join(&y).is_empty());
        let Bundle { first, second } = x;
        assert!(rt; first.fits(&y.first));
        assert!(rt; second.first.fits(&y.second.first));
        assert!(rt; !second.second.fits(&y.second.second));
        Ok(())
    }
}
