//! Transactions of their parts.
ghost use Rattle.std.specs.Prelude.{◌≡◌, IfOk, codes};
ghost use Rattle.serde_json.specs.Data.{array, item, member, no_items, no_members, object};
ghost use Rattle.serde_json.specs.View.{view};

use serde_json::{Value, json};
use std::alloc::{AllocError, Global};

/// A list of one.
pub(crate) fn one(alloc: Global, only: Value) -> Result<Value, AllocError>
    ensures { IfOk result (λ v. view v ≡ array (item (view only) no_items)) }
{
    json!(in alloc; [only])
}

/// A list of two.
pub(crate) fn two(alloc: Global, first: Value, second: Value) -> Result<Value, AllocError>
    ensures { IfOk result (λ v. view v ≡ array (item (view first) (item (view second) no_items))) }
{
    json!(in alloc; [first, second])
}

/// A list of three.
pub(crate) fn three(
    alloc: Global,
    first: Value,
    second: Value,
    third: Value,
) -> Result<Value, AllocError>
    ensures { IfOk result (λ v. view v ≡ array (item (view first) (item (view second) (item (view third) no_items)))) }
{
    json!(in alloc; [first, second, third])
}

/// A list of four.
pub(crate) fn four(
    alloc: Global,
    first: Value,
    second: Value,
    third: Value,
    fourth: Value,
) -> Result<Value, AllocError>
    ensures { IfOk result (λ v. view v ≡ array (item (view first) (item (view second) (item (view third) (item (view fourth) no_items))))) }
{
    json!(in alloc; [first, second, third, fourth])
}

/// A transaction.
pub(crate) fn transaction(
    alloc: Global,
    compare: Value,
    success: Value,
    failure: Value,
) -> Result<Value, AllocError>
    ensures { IfOk result (λ v. view v ≡ object (member (codes "compare") (view compare) (member (codes "failure") (view failure) (member (codes "success") (view success) no_members)))) }
{
    json!(in alloc; {"compare": compare, "failure": failure, "success": success})
}
