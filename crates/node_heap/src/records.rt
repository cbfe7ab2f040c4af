// Records of nodes, and how their links are changed.
ghost use Rattle.std.specs.Prelude.{◌≡◌, Some, None};
ghost use Rattle.std.specs.Option.{ForSome};
ghost use Rattle.model_heap.specs.Lists.{holds};
ghost use Rattle.slab.specs.Slab.{get, slab_len, ContainsKey};
ghost use Rattle.node_heap.specs.Records.{Becomes, IsNew, forwarded, backwarded, placed, TakesOut, PutsLast, PutsBefore, Neighbours};

use dom_terms::Text;
use slab::Slab;

/// A node, with the keys of those that it is linked to.
#[derive(Drop)]
pub struct Record {
    /// The name.
    pub name: Text,
    /// The node number.
    pub number: u32,
    /// The number of the list of children.
    pub list: u32,
    /// The parent: a root has none.
    pub parent: Option<usize>,
    /// The sibling before it: a root has none.
    pub previous: Option<usize>,
    /// The sibling after it: a root has none.
    pub next: Option<usize>,
    /// The first child.
    pub first: Option<usize>,
    /// The last child.
    pub last: Option<usize>,
}

impl Record {
    /// A root without children.
    pub fn new(name: Text, number: u32, list: u32) -> Record
        ensures { IsNew number list name result }
    {
        Record {
            name,
            number,
            list,
            parent: None,
            previous: None,
            next: None,
            first: None,
            last: None,
        }
    }
}

/// Whether the parent of the node is at the key.
pub fn is_under(node: &Record, parent: usize) -> bool
    ensures { result ≡ holds node.now.parent parent }
{
    match node.parent {
        Some(key) => key == parent,
        None => false,
    }
}

/// Takes the node at the key out of the children of its parent, if it has one: it is a root then.
pub fn detach(records: &mut Slab<Record>, key: usize)
    requires there { ContainsKey records.old key }
    requires neighbours { (r : _) → get records.old key ≡ Some r → Neighbours records.old r }
    ensures takes_out { (r : _) → get records.old key ≡ Some r
        → TakesOut records.old records.new key r }
    ensures size { slab_len records.new ≡ slab_len records.old }
    ensures capacity { records.new.capacity ≡ records.old.capacity }
{
    let record = &records[key];
    let previous = record.previous;
    let next = record.next;
    if let Some(parent) = record.parent {
        forward(records, previous, parent, next);
        backward(records, next, parent, previous);
        place(records, key, None, None, None);
    }
}

/// Puts the node at the key, which is a root, at the end of the children of the parent.
pub fn attach_last(records: &mut Slab<Record>, key: usize, parent: usize)
    requires there { ContainsKey records.old key }
    requires parent { ContainsKey records.old parent }
    requires neighbours { (r : _) → get records.old parent ≡ Some r → Neighbours records.old r }
    ensures puts_last { (r : _) → get records.old parent ≡ Some r
        → PutsLast records.old records.new parent key r }
    ensures size { slab_len records.new ≡ slab_len records.old }
    ensures capacity { records.new.capacity ≡ records.old.capacity }
{
    let last = records[parent].last;
    forward(records, last, parent, Some(key));
    backward(records, None, parent, Some(key));
    place(records, key, Some(parent), last, None);
}

/// Puts the node at the key, which is a root, before another among the children of the parent.
pub fn attach_before(records: &mut Slab<Record>, key: usize, parent: usize, next: usize)
    requires there { ContainsKey records.old key }
    requires parent { ContainsKey records.old parent }
    requires next { ContainsKey records.old next }
    requires neighbours { (r : _) → get records.old next ≡ Some r → Neighbours records.old r }
    ensures puts_before { (r : _) → get records.old next ≡ Some r
        → PutsBefore records.old records.new parent next key r }
    ensures size { slab_len records.new ≡ slab_len records.old }
    ensures capacity { records.new.capacity ≡ records.old.capacity }
{
    let previous = records[next].previous;
    forward(records, previous, parent, Some(key));
    backward(records, Some(next), parent, Some(key));
    place(records, key, Some(parent), previous, Some(next));
}

// what follows `previous` among the children of the parent is now `to`
fn forward(records: &mut Slab<Record>, previous: Option<usize>, parent: usize, to: Option<usize>)
    requires previous { ForSome previous (ContainsKey records.old) }
    requires parent { ContainsKey records.old parent }
    ensures becomes { Becomes records.old records.new (forwarded previous parent to) }
    ensures size { slab_len records.new ≡ slab_len records.old }
    ensures capacity { records.new.capacity ≡ records.old.capacity }
{
    match previous {
        Some(key) => records[key].next = to,
        None => records[parent].first = to,
    }
}

// what stands before `next` among the children of the parent is now `to`
fn backward(records: &mut Slab<Record>, next: Option<usize>, parent: usize, to: Option<usize>)
    requires next { ForSome next (ContainsKey records.old) }
    requires parent { ContainsKey records.old parent }
    ensures becomes { Becomes records.old records.new (backwarded next parent to) }
    ensures size { slab_len records.new ≡ slab_len records.old }
    ensures capacity { records.new.capacity ≡ records.old.capacity }
{
    match next {
        Some(key) => records[key].previous = to,
        None => records[parent].last = to,
    }
}

// the node at the key has this parent and these siblings
fn place(
    records: &mut Slab<Record>,
    key: usize,
    parent: Option<usize>,
    previous: Option<usize>,
    next: Option<usize>,
)
    requires { ContainsKey records.old key }
    ensures becomes { Becomes records.old records.new (placed key parent previous next) }
    ensures size { slab_len records.new ≡ slab_len records.old }
    ensures capacity { records.new.capacity ≡ records.old.capacity }
{
    let record = &mut records[key];
    record.parent = parent;
    record.previous = previous;
    record.next = next;
}
