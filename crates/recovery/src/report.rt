// What a recovery answers.
use names::DATABASES;
use survey::Found;

/// What was found, by database, and how many pages each database has then; for a database that the set
/// has not, none and 1.
// Two arrays and no array of pairs: the one goes whole from the survey to the settling, the other whole
// to the memory and the stored sizes.
#[derive(Clone, Copy)]
pub struct Recovery {
    pub found: [Found; DATABASES],
    pub sizes: [u32; DATABASES],
}
