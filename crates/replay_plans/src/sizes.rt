// Holding the sizes that degree and settings alone decide against what the plan call answers.
use firrozun::{Head, Refusal, Settings, Sizes};
use recording::agree;

// Tells whether degree and settings decide a refusal.
fn is_early(refusal: Refusal) -> bool {
    matches!(
        refusal,
        Refusal::DegreeZero | Refusal::DegreeTooHigh | Refusal::FoldsFull | Refusal::FoldsTooLow
    )
}

// Agrees if the sizes are the head's; where the call was refused, if they are refused likewise, provided that degree and settings decide it, and else are
// not refused.
pub fn agree_sizes(
    settings: Settings,
    fold: bool,
    count: usize,
    ours: &Result<Head, Refusal>,
) -> Option<()> {
    let sizes = firrozun::plan_sizes(settings, fold, count.saturating_sub(1));
    match ours {
        Ok(head) => agree(
            sizes
                == Ok(Sizes {
                    coefficients: head.coefficients,
                    lists: head.lists,
                    steps: head.steps,
                }),
        ),
        Err(refusal) if is_early(*refusal) => agree(sizes == Err(*refusal)),
        Err(_) => agree(sizes.is_ok()),
    }
}
