ghost use Rattle.std.specs.Prelude.{◌≡◌, ◌∷◌, ◌++◌, [], IfOk, OnOk, string_bytes};
ghost use Rattle.mn_base.specs.Lines.{text_of_lines};
ghost use Rattle.mn_base.specs.Fields.{line_of_fields};
ghost use Rattle.ownership.specs.Texts.{pipe_labels, pipe_lines, directory_text};

use crate::directory::Directory;
use changes::directory_head;
use mn_base::{Bytes, NoMemory};
use std::alloc::Global;

/// The text of a directory, as ASCII lines that each end with a line feed, with one line for each pipe, in order:
///
/// ```text
/// modelnet-directory 1 cores K pipes P
/// pipe Q core C
/// ```
pub fn print_directory(alloc: Global, directory: &Directory) -> Result<Bytes, NoMemory>
    ensures text { IfOk result (λ text. text ≡ directory_text directory.now) }
{
    let mut text = directory_head(alloc, directory.cores, directory.owners.len())?;
    write_pipe_lines(&mut text, &directory.owners)?;
    Ok(Bytes::from_vec(text.into_bytes()))
}

fn write_pipe_lines(text: &mut String, owners: &[u32]) -> Result<(), NoMemory>
    ensures { OnOk result (string_bytes text.new ≡ string_bytes text.old ++ text_of_lines (pipe_lines 0 owners.now)) }
{
    for (pipe, core) in owners.iter().enumerate() {
        write_pipe_line(text, pipe, *core)?;
    }
    Ok(())
}

#[tactic(auto, unfolding(crate::specs::Texts::pipe_labels))]
fn write_pipe_line(text: &mut String, pipe: usize, core: u32) -> Result<(), NoMemory>
    ensures { OnOk result
        (string_bytes text.new ≡ string_bytes text.old ++ (line_of_fields pipe_labels (pipe ∷ core ∷ []) ++ 10 ∷ [])) }
{
    writeln!(text, "pipe {pipe} core {core}")?;
    Ok(())
}
