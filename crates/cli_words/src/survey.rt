// Looks words over before any memory is taken.

ghost use Rattle.std.specs.Prelude.{◌≡◌, ◌+◌, ◌++◌, ◌∷◌, [], List, length, map, cond, string_bytes, MatchResult, Ok, Err, count_by, Option, ℕ, ◌<◌};
ghost use Rattle.cli_words.specs.Choices.{Chosen, is_settings, is_mesh, choices_of};
ghost use Rattle.cli_words.specs.Command.{is_none, output_in, output_or};
ghost use Rattle.cli_words.specs.Inner.Drafts.{HasFound};
ghost use Rattle.cli_words.specs.Inner.Seen.{seen};

use crate::choice::{Choice, choice_of, piece_at};

/// What a task's words hold, where none is at fault.
#[derive(Clone, Copy)]
pub struct Survey {
    pub meshes: usize,
    pub lacks_output: bool,
}

fn lacks_still(lacks: bool, choice: Choice<'_>) -> bool
    ensures { (o : Option (List ℕ)) → lacks ≡ is_none o → result ≡ is_none (output_or o (seen choice.entry)) }
{
    match choice {
        Choice::Output(_) => false,
        _ => lacks,
    }
}

fn count_more(count: usize, more: bool) -> usize
    requires { count < 18446744073709551615 }
    ensures { result ≡ cond more (count + 1) count }
{
    if more { count + 1 } else { count }
}

/// What the words hold, or the number of the first at fault. The first of them is word 2.
pub fn look_over(words: &[String]) -> Result<Survey, u64>
    ensures { let due = choices_of (map string_bytes words.now) in
        MatchResult result (λ s. (cs : List Chosen) × (due ≡ Ok cs) × HasFound cs s) (λ n. due ≡ Err n) }
{
    let mut meshes = 0;
    let mut lacks_output = true;
    let mut files = 0;
    let mut at = 0;
    'words: while at < words.len() {
        let piece = piece_at(words, at);
        let choice = match choice_of(piece, at as u64 + 2, files, meshes) {
            Err(number) => return Err(number),
            Ok(choice) => choice,
        };
        files = count_more(files, choice.is_settings());
        meshes = count_more(meshes, choice.is_mesh());
        lacks_output = lacks_still(lacks_output, choice);
        at += piece.words();
    }
    Ok(Survey {
        meshes,
        lacks_output,
    })
}
