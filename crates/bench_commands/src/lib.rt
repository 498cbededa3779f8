// The commands of the bench: how many octets each has, and whether some are still to come.
#![tactic(auto)]

ghost use Rattle.std.specs.Prelude.{MatchResult, ◌≡◌};
ghost use Rattle.bench_commands.specs.Commands.{octet_of};
ghost use Rattle.bench_rules.specs.Interpreter.{is_cut, length_of};

// A command. Its discriminant is the octet that stands for it in the input.
#[derive(Clone, Copy, PartialEq, Eq, Debug)]
pub enum Command {
    Point = 1,
    Advance = 2,
    Link = 3,
    Ask = 4,
    Announce = 5,
    Deliver = 6,
    Break = 7,
    Walk = 8,
}

// Says that an octet stands for no command.
#[derive(Clone, Copy, PartialEq, Eq, Debug)]
pub struct UnknownCommand;

impl TryFrom<u8> for Command {
    type Error = UnknownCommand;

    ghost try_from_gives = { λ n r. MatchResult r (λ c. octet_of c ≡ n) (λ _. length_of n ≡ 0) };

    fn try_from(octet: u8) -> Result<Command, UnknownCommand> {
        match octet {
            1 => Ok(Command::Point),
            2 => Ok(Command::Advance),
            3 => Ok(Command::Link),
            4 => Ok(Command::Ask),
            5 => Ok(Command::Announce),
            6 => Ok(Command::Deliver),
            7 => Ok(Command::Break),
            8 => Ok(Command::Walk),
            _ => Err(UnknownCommand),
        }
    }
}

impl From<Command> for u8 {
    ghost from_gives = { λ c n. n ≡ octet_of c };

    fn from(command: Command) -> u8 {
        command as u8
    }
}

impl Command {
    // Returns how many octets the command has with its operands.
    pub fn length(self) -> usize
        ensures { result ≡ length_of (octet_of self) }
    {
        match self {
            Command::Point => 11,
            Command::Advance => 5,
            Command::Link => 7,
            Command::Ask => 13,
            Command::Announce => 6,
            Command::Deliver => 4,
            Command::Break => 3,
            Command::Walk => 3,
        }
    }
}

// Reports whether octets of the first command are still to come. An unknown command has all of its octets.
pub fn is_cut(input: &[u8]) -> bool
    ensures { result ≡ is_cut input.now }
{
    if input.len() == 0 {
        return true;
    }
    match Command::try_from(octets::read_u8(input, 0)) {
        Ok(command) => input.len() < command.length(),
        Err(UnknownCommand) => false,
    }
}
