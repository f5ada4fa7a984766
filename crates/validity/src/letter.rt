ghost use Rattle.std.specs.Prelude.{◌≡◌, ◌<◌};
ghost use Rattle.validity.specs.Letters.{is_letter};

pub fn is_letter(c: u32) -> bool
    ensures { result ≡ is_letter c }
{
    matches!(c, 65..=90 | 97..=122)
}
