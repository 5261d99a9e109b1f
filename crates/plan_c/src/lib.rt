// The plan entry as C sees it: a static library over the crate `plan`.
#![tactic(auto)]

ghost use Rattle.plan.specs.Plans.{Entry};

/// Writes the answers to a plan into `text`, and says how many bytes they are, or -4 where `text` is too short for them.
#[unsafe(no_mangle)]
pub extern "C" fn tracks_plan(plan: &[u8], text: &mut [u8]) -> i64
    ensures { Entry plan.now text.old result text.new }
{
    match plan::tracks_plan(plan, text) {
        Ok(length) => length as i64,
        Err(ground) => -i64::from(ground.number()),
    }
}
