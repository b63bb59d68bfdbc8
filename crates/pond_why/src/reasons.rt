// Why a session faulted, in one plain sentence with the numbers of the instruction and of the session.
// Above it: what is told of a fault. Below it: `cause`, which finds the check that failed, `instruction`, which knows its place, the sentences, and `pond_rules`.
use crate::said;
use plan::Regs;
use pond_windows::Seen;

// The sentence, without its line's end. Where the numbers do not give the fault that was recorded, the plain rule.
pub fn reason(seg: &[u8], region: &[u16], seen: Seen, regs: Regs, number: u8, place: usize) {
    let found = cause::numbers_of(seg, region.len(), seen.window.len, regs);
    if let Some(n) = found {
        let failing = cause::first_failing(seg, region, n);
        let fault = cause::fault_of(failing);
        if let Err(why) = failing {
            if instruction::is_recorded(seg, regs.counter, fault, number, place) {
                said::why(n, why, seen.view);
                return;
            }
        }
    }
    pond_rules::fault(number);
}
