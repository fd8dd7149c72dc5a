ghost use Rattle.std.specs.Prelude.{◌≡◌, true, is_some, Option, Some, IfOk, OnOk, IfErr};
ghost use Rattle.mm_types.specs.{Key, page_of};
ghost use Rattle.mm_types.specs.declared.answers.Answer.TheVariants as answer;
ghost use Rattle.mm_world.specs.{Page, process_of, Attempt, access_of, world_with};
ghost use Rattle.mm_store.specs.{StoreOf, place_at};
ghost use Rattle.mm_object_tables.specs.{key_at};
ghost use Rattle.mm_dispatch.specs.{Refuses, Admits, KeepsTables};

use mm_object_tables::{CommittedRow, Tables};
use mm_types::{Access, PAGE_SIZE, Pid, Raise, permits};

/// What the page of an address of a living process tells an access that it permits. An error is
/// what an access raises that is refused: by no committed page, by its guard, which is off from
/// then on, or by its protection.
#[inline(always)]
pub(crate) fn admit(
    t: &mut Tables,
    pid: Pid,
    addr: u32,
    wanted: Access,
) -> Result<CommittedRow, Raise>
    requires lives { is_some (process_of t.old pid.0) ≡ true }
    ensures refused { IfErr result (λ why. (bytes : Key → Page) (what : Attempt) →
        access_of what ≡ wanted →
        Refuses (world_with t.old bytes) pid.0 addr what (answer.Raised why)
        (world_with t.new bytes)) }
    ensures admitted { IfOk result (λ row. Admits t.old pid.0 addr wanted row) }
    ensures at { IfOk result (λ row. key_at t.old (place_at pid (page_of addr)) ≡ Some row.key) }
    ensures unchanged { OnOk result (t.new ≡ t.old) }
    ensures keeps { (contents : Key → Option Page) (s : StoreOf) → KeepsTables t.old contents s →
        KeepsTables t.new contents s }
{
    let page = addr / PAGE_SIZE;
    let row = match t.committed_row(pid, page) {
        Some(row) => row,
        None => return Err(Raise::AccessViolation),
    };
    // The guard comes before the protection.
    if row.guard {
        t.take_guard_off(pid, page);
        return Err(Raise::GuardPage);
    }
    if !permits(row.prot, wanted) {
        return Err(Raise::AccessViolation);
    }
    Ok(row)
}
