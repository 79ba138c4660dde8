// Where the reading of a line stands, and the byte that leads on.
ghost use Rattle.std.specs.Prelude.{◌≡◌};
ghost use Rattle.lines.specs.Reading.{moved};

#[derive(Clone, Copy, PartialEq, Eq, Debug)]
pub enum Stage {
    // At its start.
    Start,
    // After "-" or a digit, with so many digits read.
    Digits(u8),
}

// The most digits that a line may have.
const MOST: u8 = 18;

impl Stage {
    // The stage that a byte leads to; `None` where no lawful text goes on with it.
    pub fn after(self, byte: u8) -> Option<Stage>
        ensures { result ≡ moved self byte }
    {
        match (self, byte) {
            (Stage::Start, b'-') => Some(Stage::Digits(0)),
            (Stage::Start, b'0'..=b'9') => Some(Stage::Digits(1)),
            (Stage::Digits(count), b'\n') if count > 0 => Some(Stage::Start),
            (Stage::Digits(count), b'0'..=b'9') if count < MOST => Some(Stage::Digits(count + 1)),
            _ => None,
        }
    }
}
