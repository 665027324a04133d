// Worked examples of the store's formats, as one table under one theorem.
#![tactic(auto)]

ghost use Rattle.examples.specs.Table.{Table, SoundAs};

use journal::{Verdict, judge};

/// Tells whether bytes are a sound journal. Its contract has the table of worked examples.
pub fn is_sound(bytes: &[u8]) -> bool
    ensures table { Table }
    ensures sound { SoundAs bytes.now result }
{
    matches!(judge(bytes), Verdict::Sound(_))
}
