//! The cells of a row that has not ended.
ghost use Rattle.std.specs.Prelude.{◌≡◌, ◌++◌, ◌∷◌, [], if◌then◌else◌, is_ok};
ghost use Rattle.ipc_stream_session.specs.Cells.{IsPopped, nested_cell};

use ipc_model::{Items, Value};
use std::alloc::AllocError;
use std::mem;

/// A value with cells inside: a list or a struct.
#[derive(Clone, Copy, Debug, PartialEq, Eq)]
pub enum Nesting {
    /// A list.
    List,
    /// A struct.
    Struct,
}

impl Nesting {
    // The list or struct of these cells.
    pub(crate) fn of(self, cells: Items<Value>) -> Value
        ensures { result ≡ nested_cell self cells }
    {
        match self {
            Nesting::List => Value::List(cells),
            Nesting::Struct => Value::Struct(cells),
        }
    }
}

/// The cells that come before a list or struct that has not ended, in the row or in what is around
/// it.
#[derive(Drop)]
pub(crate) struct OpenNesting {
    /// Whether a list or a struct follows these cells.
    pub(crate) kind: Nesting,
    /// The cells.
    pub(crate) cells: Items<Value>,
}

// Appends one element. If memory runs out, the list stays as it is.
pub(crate) fn push<T: Drop>(items: &mut Items<T>, element: T) -> Result<(), AllocError>
    ensures { items.new ≡ (if is_ok result then items.old ++ element ∷ [] else items.old) }
{
    let alloc = items.allocator();
    let mut vec = mem::replace(items, Items::new(alloc)).into_vec();
    let pushed = vec.push(element);
    *items = Items::from_vec(vec);
    pushed.map_err(|_| AllocError)
}

// Removes the last element.
pub(crate) fn pop<T: Drop>(items: &mut Items<T>) -> Option<T>
    ensures { IsPopped items.old result items.new }
{
    let alloc = items.allocator();
    let mut vec = mem::replace(items, Items::new(alloc)).into_vec();
    let last = vec.pop();
    *items = Items::from_vec(vec);
    last
}
