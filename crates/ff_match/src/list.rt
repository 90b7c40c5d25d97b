// Lists of candidates.
use ff_data::Candidate;
use std::marker::Model;

/// A list of candidates. Contracts see it as that list.
#[derive(Drop)]
pub struct CandidateList {
    pub items: Vec<Candidate>,
}

impl Model for CandidateList {
    ghost use Rattle.std.specs.Prelude.{List};
    ghost use Rattle.ff_data.specs.declared.search.Candidate.{Candidate};

    ghost Value = { List Candidate };

    ghost view = { λ l. l.items.items };
}
