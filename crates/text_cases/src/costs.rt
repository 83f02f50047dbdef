//! Costs: their order, and their lengths.

ghost use Rattle.std.specs.Prelude.{◌^◌, ◌<◌, ◌≤◌, IfOk};

use case_kit::{Fields, Refusal};
use root_cost::{Cost, MAX_STEPS};
use std::alloc::Global;

/// The bound of a length in billionths that is compared.
const NANO_BOUND: u64 = 10_000_000_000_000_000;

/// `COST | COST`: how the first compares with the second, and whether it is at most that, and below it.
pub fn order(alloc: Global, mut fields: Fields<'_>) -> Result<String, Refusal> {
    let left = cost_in(fields.text()?)?;
    let right = cost_in(fields.text()?)?;
    let order = left.cmp(&right);
    let at_most = left.at_most(right);
    let below = left < right;
    Ok(format!(in alloc; "{order:?}, at most {at_most}, below {below}")?)
}

/// `COST`: its length in millionths, and as text.
pub fn length(alloc: Global, mut fields: Fields<'_>) -> Result<String, Refusal> {
    let cost = measured(fields.text()?)?;
    let micro = cost.micro();
    let length = cost.length();
    Ok(format!(in alloc; "{micro} {length}")?)
}

/// `COST | NANO NANO ..`: whether the length of the cost is near each of these, in billionths.
pub fn near(alloc: Global, mut fields: Fields<'_>) -> Result<String, Refusal> {
    let cost = measured(fields.text()?)?;
    let mut said = String::from_str(alloc, "length")?;
    for length in fields.text()?.split(' ') {
        said.push_str(near_said(cost, length)?)?;
    }
    Ok(said)
}

/// Whether the length of the cost is near that one.
fn near_said(cost: Cost, length: &str) -> Result<&'static str, Refusal>
    requires straight { cost.straight ≤ MAX_STEPS }
    requires diagonal { cost.diagonal ≤ MAX_STEPS }
{
    if cost.near(nano_in(length)?) {
        Ok(" near")
    } else {
        Ok(" off")
    }
}

/// The cost that a text has: its straight and its diagonal steps, as `3 4`.
fn cost_in(text: &str) -> Result<Cost, Refusal> {
    let Some((straight, diagonal)) = text.split_once(' ') else {
        return Err(Refusal::OutOfForm);
    };
    match (straight.parse(), diagonal.parse()) {
        (Ok(straight), Ok(diagonal)) => Ok(Cost { straight, diagonal }),
        _ => Err(Refusal::OutOfForm),
    }
}

/// A cost that has a length.
fn measured(text: &str) -> Result<Cost, Refusal>
    ensures straight { IfOk result (λ cost. cost.straight ≤ MAX_STEPS) }
    ensures diagonal { IfOk result (λ cost. cost.diagonal ≤ MAX_STEPS) }
{
    let cost = cost_in(text)?;
    if cost.straight > MAX_STEPS || cost.diagonal > MAX_STEPS {
        return Err(Refusal::OutOfForm);
    }
    Ok(cost)
}

/// A length in billionths.
fn nano_in(text: &str) -> Result<u64, Refusal>
    ensures { IfOk result (λ nano. nano < 10 ^ 16) }
{
    match text.parse::<u64>() {
        Ok(nano) if nano < NANO_BOUND => Ok(nano),
        _ => Err(Refusal::OutOfForm),
    }
}
