// The name of a stage.
ghost use Rattle.stages.specs.Names.{name};
ghost use Rattle.std.specs.Option.{option_map};
ghost use Rattle.std.specs.Prelude.{◌≡◌};

const LONGEST: usize = 32;

// The bytes as a name, if there are 1 to 32 and each is visible.
pub fn read_name(bytes: &[u8]) -> Option<&str>
    ensures { option_map (λ x. x.now) result ≡ name bytes.now }
{
    if bytes.is_empty() || bytes.len() > LONGEST || !bytes.iter().all(u8::is_ascii_graphic) {
        return None;
    }
    std::str::from_utf8(bytes).ok()
}
