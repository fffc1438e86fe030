ghost use Rattle.std.specs.Prelude.{◌≡◌, ◌++◌, ◌∷◌, [], IfOk, string_bytes};
ghost use Rattle.changes.specs.Head.{directory_head};

use mn_base::NoMemory;
use std::alloc::Global;

/// The head line of a directory text of the first version, with its line feed: `modelnet-directory 1 cores K pipes P`.
#[tactic(auto, unfolding(crate::specs::Head::first_head_labels))]
pub fn directory_head(alloc: Global, cores: u32, pipes: usize) -> Result<String, NoMemory>
    ensures text { IfOk result (λ text. string_bytes text ≡ directory_head cores pipes ++ 10 ∷ []) }
{
    let mut text = String::new(alloc);
    writeln!(text, "modelnet-directory 1 cores {cores} pipes {pipes}")?;
    Ok(text)
}
