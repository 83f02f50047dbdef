//! Laws of results and reports, for proofs. None of these functions does anything: each one's contract is a law.

ghost use Rattle.scen_run.specs.Reports.{ResultsHaveOneReport};
ghost use Rattle.scen_run.specs.Results.{LinesHaveOneResult};

/// Each line has one result of one version, and so lines have one list of results, in however many threads it is made.
pub fn lines_have_one_result()
    ensures { LinesHaveOneResult }
{}

/// Results have one report.
pub fn results_have_one_report()
    ensures { ResultsHaveOneReport }
{}
