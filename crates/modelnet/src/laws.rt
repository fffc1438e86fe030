//! Facts about the definitions that contracts cite. These functions compute nothing.

ghost use Rattle.modelnet.specs.Answers.{EachCommandIsSound, WordsAndBytesHaveOneOutcome};
ghost use Rattle.modelnet.specs.Copies.{PcapngIsReplayedAsItsCopy};
ghost use Rattle.modelnet.specs.OtherCores.{CoresChangeNoOutput, OwnersChangeNoOutput};

/// Of each command: bytes are refused by one answer at most, what is refused isn't written, and there is one output at most.
pub fn each_command_is_sound()
    ensures { EachCommandIsSound }
{}

/// The same words and the same bytes of the inputs have the same bytes of the outputs, of each role that is written.
pub fn words_and_bytes_have_one_outcome()
    ensures { WordsAndBytesHaveOneOutcome }
{}

/// Each command that reads a trace allows the same outputs for a pcapng file and for the classic copy of its trace.
pub fn pcapng_is_replayed_as_its_copy()
    ensures { PcapngIsReplayedAsItsCopy }
{}

/// Two orders that ask for one run, on whatever cores, write the same trace and report, where pipes change alike.
pub fn cores_change_no_output()
    ensures { CoresChangeNoOutput }
{}

/// So do two orders without a directory, or with directories that change no pipe.
pub fn owners_change_no_output()
    ensures { OwnersChangeNoOutput }
{}
