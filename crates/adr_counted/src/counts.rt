//! How many there are after a put, and how many are left.
ghost use Rattle.std.specs.Prelude.{◌≡◌, ◌+◌, if◌then◌else◌, IfOk, IfErr};
ghost use Rattle.adr_db.specs.Calls.{IsOfStore};

use adr_text::Refusal;

/// How many there are after a put, in the place of one that is there or not.
pub(crate) fn with_put(count: u64, is_there: bool) -> Result<u64, Refusal>
    ensures counts { IfOk result (λ n. n ≡ (if is_there then count else count + 1)) }
    ensures refused { IfErr result IsOfStore }
{
    if is_there {
        return Ok(count);
    }
    // No table holds as many as would pass a u64.
    count.checked_add(1).ok_or(Refusal::Store)
}

/// How many are left where so many go. Where that is more than there are, the number is not that of the table.
pub(crate) fn left(count: u64, gone: u64) -> Result<u64, Refusal>
    ensures counts { IfOk result (λ n. n + gone ≡ count) }
    ensures refused { IfErr result IsOfStore }
{
    count.checked_sub(gone).ok_or(Refusal::Store)
}
