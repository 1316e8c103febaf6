//! What quotas are charged with.

ghost use Rattle.std.specs.Prelude.{◌≡◌, ◌+◌, ◌-◌, ◌≤◌, ◌<◌, ◌^◌, length, map, slice_set, slice_index_or, IfOk};
ghost use Rattle.def_chunks.specs.Heaps.{no_account};
ghost use Rattle.ct_heap.specs.Effects.{accounts_for};

use def_chunks::Account;
use def_refusals::NoMemory;
use std::alloc::Global;

/// One account for each limit, with nothing charged.
pub(crate) fn accounts_of(alloc: Global, limits: &[u32]) -> Result<Vec<Account>, NoMemory>
    ensures { IfOk result (λ v. v.items ≡ accounts_for limits.now) }
{
    let mut accounts = Vec::with_capacity(alloc, limits.len())?;
    for limit in limits {
        accounts.push(Account {
            limit: *limit,
            charged: 0,
        })?;
    }
    Ok(accounts)
}

/// Charges a quota with so many bytes more; what it is charged with then.
pub(crate) fn charge(accounts: &mut Vec<Account>, quota: u32, bytes: u32) -> u32
    requires quota { quota < length accounts.old.items }
    requires fits { (slice_index_or accounts.old.items quota no_account).charged + bytes < 2 ^ 32 }
    ensures accounts { accounts.new.items
        ≡ slice_set accounts.old.items quota
        (record {
          limit = (slice_index_or accounts.old.items quota no_account).limit;
          charged = (slice_index_or accounts.old.items quota no_account).charged + bytes;
        }) }
    ensures charged { result
        ≡ (slice_index_or accounts.old.items quota no_account).charged + bytes }
{
    let old = accounts[quota as usize];
    let charged = old.charged + bytes;
    accounts[quota as usize] = Account {
        limit: old.limit,
        charged,
    };
    charged
}

/// Takes so many bytes off a quota's charges; what it is charged with then.
pub(crate) fn discharge(accounts: &mut Vec<Account>, quota: u32, bytes: u32) -> u32
    requires quota { quota < length accounts.old.items }
    requires fits { bytes ≤ (slice_index_or accounts.old.items quota no_account).charged }
    ensures accounts { accounts.new.items
        ≡ slice_set accounts.old.items quota
        (record {
          limit = (slice_index_or accounts.old.items quota no_account).limit;
          charged = (slice_index_or accounts.old.items quota no_account).charged - bytes;
        }) }
    ensures charged { result
        ≡ (slice_index_or accounts.old.items quota no_account).charged - bytes }
{
    let old = accounts[quota as usize];
    let charged = old.charged - bytes;
    accounts[quota as usize] = Account {
        limit: old.limit,
        charged,
    };
    charged
}
