// What a search up to a bound came to.
use ff_forms::Functions;

/// The functions, or other pole numbers than those of the system that was given, or no pole number
/// in some class.
#[derive(Drop)]
pub enum Answer {
    Found(Functions),
    Differs,
    Short,
}
