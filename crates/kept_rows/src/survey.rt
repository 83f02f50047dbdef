//! What pairs of tiles tell of all cells, one pair after the other.

ghost use Rattle.std.specs.Prelude.{◌≡◌, ◌+◌, ◌<◌, ◌≤◌, IfOk, IfSome, OnOk, length};
ghost use Rattle.kept_rows.specs.Targets.{AreTargets};
ghost use Rattle.kept_rows.specs.Pairs.{IsPair};
ghost use Rattle.kept_rows.specs.Surveys.{CanSearch, HasSameLists, IsSurveyOf};

use crate::ball::{MAX_BALL, grow, is_round, marks_of};
use crate::cuts::{Cuts, WORTH_A_PAIR};
use crate::gates::ask_gates;
use crate::pair::{Pair, sets_of};
use crate::targets::{Targets, first_targets, next_targets, round_targets};
use crate::verdict::{Stage, Verdict, count_open, fails_of, has_kept, judge_all};
use lane_rows::LANES;
use std::alloc::{AllocError, Global};

/// How many pairs of tiles are solved for the ball at most.
const MAX_PAIRS: usize = 4;

/// How many pairs of tiles are solved from gates at most.
const MAX_CUTS: usize = 4;

/// How many cells there are for each pair behind the first, so that all pairs together take a fifth of the time that all
/// rows take at most. Until the ball is round the gaps it is half as many.
const CELLS_A_PAIR: usize = 400;

/// What share of the undecided cells, at least, a pair has to decide so that another one from the ball may pay.
const LEAST_SHARE: usize = 8;

/// What was found of all cells of the shorter list.
#[derive(Drop)]
pub(crate) struct Survey {
    /// The places of the ball.
    ball: Vec<u16>,
    /// The bits of the ball's cells from which a move leads out of it. Only the choice of targets looks at them.
    marks: u64,
    /// Whether all cells beside those of the gaps are in the ball.
    is_round: bool,
    /// What is known of each cell.
    pub verdicts: Vec<Verdict>,
    /// The places of the first pair's lanes.
    pub sources: [u16; LANES],
    /// The first sets from each cell to those of the first pair's lanes, over the longer list.
    pub sets: Vec<[u8; LANES]>,
}

/// What pairs of tiles tell; `None` where the first one is not solved, or no cell is known to keep its first sets.
///
/// # Errors
///
/// `AllocError` where memory runs out.
pub(crate) fn take_survey(alloc: Global, pair: &mut Pair) -> Result<Option<Survey>, AllocError>
    requires can { CanSearch pair.old }
    ensures still { HasSameLists pair.old pair.new }
    ensures surveyed { IfOk result (λ found. IfSome found (IsSurveyOf pair.new)) }
{
    let Some(mut survey) = begin(alloc, pair)? else {
        return Ok(None);
    };
    go_on(pair, &mut survey)?;
    ask_cuts(alloc, pair, &mut survey)?;
    if has_kept(&survey.verdicts) {
        Ok(Some(survey))
    } else {
        Ok(None)
    }
}

/// What the first pair tells.
fn begin(alloc: Global, pair: &mut Pair) -> Result<Option<Survey>, AllocError>
    requires can { CanSearch pair.old }
    ensures still { HasSameLists pair.old pair.new }
    ensures surveyed { IfOk result (λ found. IfSome found (IsSurveyOf pair.new)) }
{
    let Some(targets) = first_targets(pair) else {
        return Ok(None);
    };
    if !pair.search(targets.sources) {
        return Ok(None);
    }
    Ok(Some(first_survey(alloc, pair, targets)?))
}

/// What the first pair tells, once it is solved.
fn first_survey(alloc: Global, pair: &Pair, targets: Targets) -> Result<Survey, AllocError>
    requires searched { IsPair pair.now.whole pair.now.part pair.now.gaps.now }
    requires can { CanSearch pair.now }
    requires targets { AreTargets pair.now.part.cells targets.sources targets.count }
    requires sources { pair.now.part.tile.sources ≡ targets.sources }
    ensures { IfOk result (IsSurveyOf pair.now) }
{
    let mut ball = Vec::with_capacity(alloc, MAX_BALL)?;
    grow(&mut ball, targets)?;
    let (whole, cells) = (pair.whole.cells(), pair.part.cells());
    let is_round = is_round(whole, cells, pair.gaps, &ball);
    let sets = sets_of(alloc, pair)?;
    let marks = marks_of(&pair.part, &ball);
    let mut verdicts = vec![in alloc; Verdict::Open(0); cells.len()]?;
    let stage = Stage {
        former: 0,
        marks,
        is_round,
    };
    judge_all(pair, &ball, stage, &mut verdicts);
    let sources = targets.sources;
    Ok(Survey {
        ball,
        marks,
        is_round,
        verdicts,
        sources,
        sets,
    })
}

/// Solves more pairs, as long as they may pay.
///
/// # Errors
///
/// `AllocError` where memory runs out.
fn go_on(pair: &mut Pair, survey: &mut Survey) -> Result<(), AllocError>
    requires can { CanSearch pair.old }
    requires surveyed { IsSurveyOf pair.old survey.old }
    ensures still { HasSameLists pair.old pair.new }
    ensures surveyed { OnOk result (IsSurveyOf pair.new survey.new) }
{
    let mut former = usize::MAX;
    for turn in 1..MAX_PAIRS {
        let open = count_open(&survey.verdicts);
        if !pays(survey, turn, open, former) || !solve_next(pair, survey)? {
            return Ok(());
        }
        former = open;
    }
    Ok(())
}

/// Whether another pair may pay after so many, where so many cells are undecided, and so many were before the last pair:
/// where that decided few, gates tell more. Until the ball is round the gaps nothing is known to stay, and twice as many
/// are solved.
fn pays(survey: &Survey, turn: usize, open: usize, former: usize) -> bool
    requires { turn < MAX_PAIRS }
{
    let count = survey.verdicts.len();
    if survey.is_round {
        (turn + 1) * CELLS_A_PAIR <= count
            && open > WORTH_A_PAIR
            && open <= former - former / LEAST_SHARE
    } else {
        (turn + 1) * (CELLS_A_PAIR / 2) <= count
    }
}

/// Solves one pair more, and says whether it did.
fn solve_next(pair: &mut Pair, survey: &mut Survey) -> Result<bool, AllocError>
    requires can { CanSearch pair.old }
    requires surveyed { IsSurveyOf pair.old survey.old }
    ensures still { HasSameLists pair.old pair.new }
    ensures surveyed { OnOk result (IsSurveyOf pair.new survey.new) }
{
    let Some(targets) = targets_after(pair, survey) else {
        return Ok(false);
    };
    if survey.ball.len() + targets.count > MAX_BALL || !pair.search(targets.sources) {
        return Ok(false);
    }
    judge_next(pair, targets, survey)?;
    Ok(true)
}

/// The targets of the next pair, if there are some.
fn targets_after(pair: &Pair, survey: &Survey) -> Option<Targets>
    requires can { CanSearch pair.now }
    ensures { IfSome result (λ targets. AreTargets pair.now.part.cells targets.sources targets.count) }
{
    if survey.is_round {
        let fails = fails_of(&survey.verdicts, survey.marks);
        next_targets(&pair.part, &survey.ball, fails)
    } else {
        round_targets(pair, &survey.ball)
    }
}

/// Tells more of all cells, once the next pair is solved.
fn judge_next(pair: &Pair, targets: Targets, survey: &mut Survey) -> Result<(), AllocError>
    requires searched { IsPair pair.now.whole pair.now.part pair.now.gaps.now }
    requires targets { AreTargets pair.now.part.cells targets.sources targets.count }
    requires sources { pair.now.part.tile.sources ≡ targets.sources }
    requires few { length survey.old.ball.items + targets.count ≤ MAX_BALL }
    requires surveyed { IsSurveyOf pair.now survey.old }
    ensures { OnOk result (IsSurveyOf pair.now survey.new) }
{
    let former = survey.ball.len();
    grow(&mut survey.ball, targets)?;
    let marks = marks_of(&pair.part, &survey.ball);
    let (whole, part) = (pair.whole.cells(), pair.part.cells());
    let is_round = is_round(whole, part, pair.gaps, &survey.ball);
    let stage = Stage {
        former,
        marks,
        is_round,
    };
    judge_all(pair, &survey.ball, stage, &mut survey.verdicts);
    survey.marks = marks;
    survey.is_round = is_round;
    Ok(())
}

/// Solves pairs from gates, as long as they may pay.
///
/// # Errors
///
/// `AllocError` where memory runs out.
fn ask_cuts(alloc: Global, pair: &mut Pair, survey: &mut Survey) -> Result<(), AllocError>
    requires can { CanSearch pair.old }
    requires surveyed { IsSurveyOf pair.old survey.old }
    ensures still { HasSameLists pair.old pair.new }
    ensures surveyed { OnOk result (IsSurveyOf pair.new survey.new) }
{
    let most = MAX_CUTS.min((survey.verdicts.len() / CELLS_A_PAIR).saturating_sub(MAX_PAIRS));
    if most == 0 || count_open(&survey.verdicts) <= WORTH_A_PAIR {
        return Ok(());
    }
    let mut cuts = Cuts::new(alloc, pair)?;
    for _ in 0..most {
        if count_open(&survey.verdicts) <= WORTH_A_PAIR {
            return Ok(());
        }
        if !ask_next(alloc, pair, &mut cuts, survey)? {
            return Ok(());
        }
    }
    Ok(())
}

/// Solves a pair from the gates of the next cut, and says whether there was one.
fn ask_next(
    alloc: Global,
    pair: &mut Pair,
    cuts: &mut Cuts,
    survey: &mut Survey,
) -> Result<bool, AllocError>
    requires can { CanSearch pair.old }
    requires surveyed { IsSurveyOf pair.old survey.old }
    ensures still { HasSameLists pair.old pair.new }
    ensures surveyed { OnOk result (IsSurveyOf pair.new survey.new) }
{
    match cuts.next(pair, &survey.verdicts)? {
        Some(cut) => {
            ask_gates(alloc, pair, &cut, &mut survey.verdicts)?;
            Ok(true)
        }
        None => Ok(false),
    }
}
