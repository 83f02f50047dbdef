//! Laws of histories, for proofs. These functions do nothing: each contract is a law.

ghost use Rattle.path_core.specs.HistoryLaws.{AcceptedEditsStay, BeginningsAreLegal, LegalHistoriesAreBounded};
ghost use Rattle.path_core.specs.HistoryLaws.{LegalStepByStep, PublishedPrefixesRise};

/// A history is legal step by step.
pub fn legal_step_by_step()
    ensures { LegalStepByStep }
{}

/// Each beginning of a legal history is legal.
pub fn beginnings_are_legal()
    ensures { BeginningsAreLegal }
{}

/// A legal history publishes only what was accepted, halts at most once, and has at most
/// [`MAX_ENTRIES`](crate::MAX_ENTRIES) entries.
pub fn legal_histories_are_bounded()
    ensures { LegalHistoriesAreBounded }
{}

/// As a legal history grows, the published version is never replaced by an older one.
pub fn published_prefixes_rise()
    ensures { PublishedPrefixesRise }
{}

/// Accepted edits stay as a history grows, and so do their maps, versions and answers.
pub fn accepted_edits_stay()
    ensures { AcceptedEditsStay }
{}
