// The connectives, and the bytes that are their commands.
ghost use Rattle.std.specs.Prelude.{◌≡◌};
ghost use Rattle.question.specs.Connectives.{Names, command_of};

#[derive(Clone, Copy, PartialEq, Eq)]
pub enum Binary {
    And,
    Or,
    Implies,
    Equiv,
}

#[derive(Clone, Copy, PartialEq, Eq)]
pub enum Connective {
    Not,
    Two(Binary),
}

// A byte that is no connective's command.
#[derive(Clone, Copy)]
pub struct NoConnective;

impl TryFrom<u8> for Connective {
    type Error = NoConnective;

    ghost try_from_gives = { Names };

    fn try_from(b: u8) -> Result<Self, NoConnective> {
        match b {
            2 => Ok(Connective::Not),
            3 => Ok(Connective::Two(Binary::And)),
            4 => Ok(Connective::Two(Binary::Or)),
            5 => Ok(Connective::Two(Binary::Implies)),
            6 => Ok(Connective::Two(Binary::Equiv)),
            _ => Err(NoConnective),
        }
    }
}

impl From<Connective> for u8 {
    ghost from_gives = { λ k b. b ≡ command_of k };

    fn from(k: Connective) -> u8 {
        match k {
            Connective::Not => 2,
            Connective::Two(Binary::And) => 3,
            Connective::Two(Binary::Or) => 4,
            Connective::Two(Binary::Implies) => 5,
            Connective::Two(Binary::Equiv) => 6,
        }
    }
}
