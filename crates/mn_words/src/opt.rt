use mn_base::Refusal;

/// An option of a command, or its PIPE or MOVE words.
#[derive(Clone, Copy, Debug, PartialEq, Eq)]
pub enum Opt {
    Mode,
    Cores,
    Seed,
    TickNs,
    ClusterReport,
    Order,
    Turns,
    Number,
    Packets,
    Pipe,
    Loss,
    Move,
}

/// What is wrong with the words of a command line.
#[derive(Clone, Copy, Debug, PartialEq, Eq)]
pub enum WordsFault {
    /// There is no word, or the first is no command.
    Command,
    /// The words aren't of the command's form.
    Form,
    /// They are, and the value of this option, the first in the order of `Opt`, is outside its range.
    Value(Opt),
}

impl From<WordsFault> for Refusal<WordsFault> {
    ghost use Rattle.std.specs.Prelude.{◌≡◌};
    ghost use Rattle.mn_base.specs.declared.refusal.Refusal.TheVariants as refusal;

    ghost from_gives = { λ fault e. e ≡ refusal.Fault fault };

    fn from(fault: WordsFault) -> Self {
        Refusal::Fault(fault)
    }
}
