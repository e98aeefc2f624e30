//! The lists of cells. Each is linked both ways inside the block, from its head and back to it.
//!
//! The end of the list l has the number `capacity + l`, so what is before the first cell and after the last one has a
//! number too. The free cells that were used are linked one way, from the last one that came free.
ghost use Rattle.std.specs.Prelude.{◌≡◌, ℕ, ◌+◌, ◌^◌, ◌<◌, ◌≤◌, [], ◌∷◌, ◌++◌, if◌then◌else◌, nat_lt, length, get_or};
ghost use Rattle.std.specs.Prelude.{slice_set, map, replicate, IfOk, IfSome, OnSome, IfNone, IsNone, ◌↔◌};
ghost use Rattle.std.specs.Prelude.{Option, Some, None};
ghost use Rattle.std.specs.Borrow.{sem};
ghost use Rattle.line_arena.specs.declared.node.Node.{Node};
ghost use Rattle.line_arena.specs.Filled.{IsFilled};
ghost use Rattle.line_arena.specs.Rings.{no_head, node, at, edit, with_next, with_prev, with_value_of};
ghost use Rattle.line_arena.specs.CellLists.{look_up, without, append_to};
ghost use Rattle.line_arena.specs.Chains.{AreEmpty, total, rings_of, emptied, empty_head, IsTied, SameUse, SameSizes};
ghost use Rattle.line_arena.specs.Arenas.{IsArena, Lacks, IsBlank, model, free_cells};

use crate::block::Block;
use crate::node::{Head, Node, Position};
use std::alloc::{AllocError, Global};

/// The block of cells and the heads of the lists.
pub struct Chains<T> {
    pub(crate) block: Block<Node<T>>,
    pub(crate) heads: Vec<Head>,
    pub(crate) capacity: u32,
    // The cells from this one on were never used.
    pub(crate) used: u32,
    // How many cells were used and are free, and the first of them.
    spares: u32,
    free: u32,
}

/// Writes what comes after a cell. The end of a list has the first cell, which stands in the head.
#[inline(always)]
fn set_next_cell<T>(block: &mut Block<Node<T>>, head: &mut Head, capacity: u32, cell: u32, to: u32)
    requires { cell < capacity → IsFilled block.old cell }
    ensures block { block.new ≡ edit capacity (with_next to) block.old cell }
    ensures head { head.new ≡ record head.old {
      first = if nat_lt cell capacity then head.old.first else to;
    } }
{
    if cell < capacity {
        block.get_mut(cell as usize).next = to;
    } else {
        head.first = to;
    }
}

/// Writes what comes before a cell. The end of a list has the last cell, which stands in the head.
#[inline(always)]
fn set_previous_cell<T>(
    block: &mut Block<Node<T>>,
    head: &mut Head,
    capacity: u32,
    cell: u32,
    to: u32,
)
    requires { cell < capacity → IsFilled block.old cell }
    ensures block { block.new ≡ edit capacity (with_prev to) block.old cell }
    ensures head { head.new ≡ record head.old {
      last = if nat_lt cell capacity then head.old.last else to;
    } }
{
    if cell < capacity {
        block.get_mut(cell as usize).prev = to;
    } else {
        head.last = to;
    }
}

/// Writes all links of a cell.
#[inline(always)]
fn set_cell_links<T>(block: &mut Block<Node<T>>, cell: u32, prev: u32, next: u32, list: u32)
    requires { IsFilled block.old cell }
    ensures { block.new ≡ slice_set block.old cell
        (Some (node prev next list (at block.old cell).item)) }
{
    let node = block.get_mut(cell as usize);
    node.prev = prev;
    node.next = next;
    node.list = list;
}

/// Writes the value of a cell, and gives what it had.
#[inline(always)]
fn set_cell_value<T>(block: &mut Block<Node<T>>, cell: u32, item: T) -> Option<T>
    requires { IsFilled block.old cell }
    ensures value { result ≡ (at block.old cell).item }
    ensures after { block.new ≡ with_value_of block.old cell item }
{
    block.get_mut(cell as usize).item.replace(item)
}

/// Takes the value of a cell out of it, and writes the next free cell and the number of lists.
#[inline(always)]
fn set_cell_free<T>(block: &mut Block<Node<T>>, cell: u32, next: u32, lists: u32) -> Option<T>
    requires { IsFilled block.old cell }
    ensures value { result ≡ (at block.old cell).item }
    ensures after { block.new ≡ slice_set block.old cell
        (Some (node (at block.old cell).prev next lists None)) }
{
    let node = block.get_mut(cell as usize);
    node.next = next;
    node.list = lists;
    node.item.take()
}

/// The heads of empty lists. The end of the first one has the number `end`.
fn heads_of_empty_lists(alloc: Global, end: u32, count: u32) -> Result<Vec<Head>, AllocError>
    requires { end + count < 2 ^ 32 }
    ensures { IfOk result (λ v. AreEmpty end count v.items) }
{
    let mut heads = Vec::with_capacity(alloc, count as usize)?;
    let mut at = 0;
    while at < count {
        heads.push_reserved(Head {
            first: end + at,
            last: end + at,
            count: 0,
        });
        at += 1;
    }
    Ok(heads)
}

impl<T> Chains<T> {
    ghost use Rattle.line_arena.specs.ChainLends.{lends_value};

    /// Cells that were never used, and empty lists. No cell is written.
    pub(crate) fn new(alloc: Global, cells: u32, lists: u32) -> Result<Chains<T>, AllocError>
        requires { (cells ≤ 2 ^ 24) × (lists ≤ 2 ^ 21) }
        ensures tied { IfOk result (λ c. IsTied c) }
        ensures fields { IfOk result (λ c. (c.capacity ≡ cells) × (c.used ≡ 0)
            × (c.block ≡ replicate cells None) × (length c.heads.items ≡ lists)
            × (c.spares ≡ 0)) }
        ensures empty { IfOk result (λ c. (rings_of c ≡ replicate lists []) ×
            (total c.heads.items ≡ 0)) }
    {
        let heads = heads_of_empty_lists(alloc, cells, lists)?;
        let block = Block::new(alloc, cells as usize)?;
        Ok(Chains {
            block,
            heads,
            capacity: cells,
            used: 0,
            spares: 0,
            free: 0,
        })
    }

    /// Drops what the used cells hold, and gives the block back.
    pub(crate) fn clear(self)
    where
        T: Drop,
        requires { ((y : ℕ) → y < self.used → IsFilled self.block y)
            × ((y : ℕ) → self.used ≤ y → get_or self.block y None ≡ None) }
    {
        let Chains {
            mut block,
            heads: _,
            capacity: _,
            used,
            spares: _,
            free: _,
        } = self;
        let mut at = 0;
        while at < used {
            drop(block.take(at as usize));
            at += 1;
        }
        block.release();
    }

    /// Takes a node out of the block, with what it holds, and empties its list if it is on one.
    fn empty_list(&mut self, cell: u32) -> Node<T>
        requires cell { IsFilled self.old.block cell }
        requires small { self.old.capacity + length self.old.heads.items ≤ 2 ^ 31 }
        ensures node { get_or self.old.block cell None ≡ Some result }
        ensures block { self.new.block ≡ slice_set self.old.block cell None }
        ensures heads { self.new.heads.items ≡ slice_set self.old.heads.items result.list
            (empty_head (self.old.capacity + result.list)) }
        ensures sizes { SameSizes self.old self.new }
    {
        let node = self.block.take(cell as usize);
        if (node.list as usize) < self.heads.len() {
            let end = self.capacity + node.list;
            self.heads[node.list as usize] = Head {
                first: end,
                last: end,
                count: 0,
            };
        }
        node
    }

    /// Takes all cells off their lists and drops what they hold. They count as never used then.
    pub(crate) fn empty_lists(&mut self)
    where
        T: Drop,
        requires { IsArena self.old }
        ensures tied { IsTied self.new }
        ensures fields { (self.new.capacity ≡ self.old.capacity) × (self.new.used ≡ 0)
            × (self.new.block ≡ replicate self.old.capacity None)
            × (length self.new.heads.items ≡ length self.old.heads.items) × (self.new.spares ≡ 0) }
        ensures empty { (rings_of self.new ≡ replicate (length self.old.heads.items) []) ×
            (total self.new.heads.items ≡ 0) }
    {
        let mut at = 0;
        while at < self.used {
            drop(self.empty_list(at));
            at += 1;
        }
        self.used = 0;
        self.spares = 0;
    }

    /// Takes a cell off its list. The node stays in the block, with what it holds.
    #[inline(always)]
    fn unlink_node(&mut self, cell: u32)
        requires tied { IsTied self.old }
        requires cell { IsFilled self.old.block cell }
        requires on { (at self.old.block cell).list < length self.old.heads.items }
        ensures tied { IsTied (emptied cell self.new) }
        ensures value { look_up cell (rings_of self.old) ≡ Some (at self.new.block cell).item }
        ensures lists { rings_of (emptied cell self.new) ≡ map (without cell) (rings_of self.old) }
        ensures total { total self.new.heads.items + 1 ≡ total self.old.heads.items }
        ensures uses { SameUse cell self.old (emptied cell self.new) ×
            IsFilled self.new.block cell }
        ensures sizes { SameSizes self.old self.new }
    {
        let links = self.position_of_cell(cell);
        let head = &mut self.heads[links.list as usize];
        set_next_cell(&mut self.block, head, self.capacity, links.prev, links.next);
        set_previous_cell(&mut self.block, head, self.capacity, links.next, links.prev);
        head.count -= 1;
    }

    /// Puts a cell whose node is on no list at the end of one. The node stays in the block, with what it holds.
    #[inline(always)]
    fn link_node_at_end(&mut self, list: u32, cell: u32)
        requires tied { IsTied (emptied cell self.old) }
        requires list { list < length self.old.heads.items }
        requires cell { (cell < self.old.capacity) × IsFilled self.old.block cell }
        requires more { total self.old.heads.items < 2 ^ 24 }
        ensures tied { IsTied self.new }
        ensures rings { rings_of self.new
            ≡ append_to list (cell, (at self.old.block cell).item) (rings_of (emptied cell
            self.old)) }
        ensures total { total self.new.heads.items ≡ total self.old.heads.items + 1 }
        ensures uses { SameUse cell (emptied cell self.old) self.new ×
            IsFilled self.new.block cell }
        ensures sizes { SameSizes self.old self.new }
    {
        let head = &mut self.heads[list as usize];
        let last = head.last;
        set_cell_links(&mut self.block, cell, last, self.capacity + list, list);
        set_next_cell(&mut self.block, head, self.capacity, last, cell);
        head.last = cell;
        head.count += 1;
    }

    /// Takes a cell off its list. It keeps its value, and isn't free.
    #[inline(always)]
    pub(crate) fn detach(&mut self, cell: u32)
        requires arena { IsArena self.old }
        requires cell { IsFilled self.old.block cell }
        requires on { (at self.old.block cell).list < length self.old.heads.items }
        ensures lacks { Lacks cell (emptied cell self.new) × IsFilled self.new.block cell }
        ensures value { look_up cell (rings_of self.old) ≡ Some (at self.new.block cell).item }
        ensures lists { rings_of (emptied cell self.new) ≡ map (without cell) (rings_of self.old) }
        ensures sizes { SameSizes self.old self.new }
    {
        self.unlink_node(cell);
    }

    /// Puts a cell with a value that is on no list and not free at the end of a list.
    #[inline(always)]
    pub(crate) fn attach(&mut self, list: u32, cell: u32)
        requires lacks { Lacks cell (emptied cell self.old) × IsFilled self.old.block cell }
        requires list { list < length self.old.heads.items }
        requires value { (v : T) × ((at self.old.block cell).item ≡ Some v) }
        ensures arena { IsArena self.new }
        ensures lists { rings_of self.new
            ≡ append_to list (cell, (at self.old.block cell).item) (rings_of (emptied cell
            self.old)) }
        ensures sizes { (self.new.capacity ≡ self.old.capacity) × (self.new.used ≡ self.old.used) }
    {
        self.link_node_at_end(list, cell);
    }

    /// Writes the value of a cell that is on no list and not free, and puts it at the end of a list. Gives the value
    /// that it had.
    #[inline(always)]
    pub(crate) fn fill(&mut self, list: u32, cell: u32, item: T) -> Option<T>
        requires lacks { Lacks cell (emptied cell self.old) × IsFilled self.old.block cell }
        requires list { list < length self.old.heads.items }
        ensures value { result ≡ (at self.old.block cell).item }
        ensures arena { IsArena self.new }
        ensures lists { rings_of self.new
            ≡ append_to list (cell, Some item) (rings_of (emptied cell self.old)) }
        ensures sizes { (self.new.capacity ≡ self.old.capacity) × (self.new.used ≡ self.old.used) }
    {
        let before = set_cell_value(&mut self.block, cell, item);
        self.attach(list, cell);
        before
    }

    /// Makes a cell free that is on no list, and gives the value that it had.
    #[inline(always)]
    pub(crate) fn release(&mut self, cell: u32) -> Option<T>
        requires { Lacks cell (emptied cell self.old) × IsFilled self.old.block cell }
        ensures value { result ≡ (at self.old.block cell).item }
        ensures arena { IsArena self.new }
        ensures lists { rings_of self.new ≡ rings_of (emptied cell self.old) }
        ensures sizes { self.new.capacity ≡ self.old.capacity }
    {
        let lists = self.lists();
        let item = set_cell_free(&mut self.block, cell, self.free, lists);
        self.free = cell;
        self.spares += 1;
        item
    }

    /// Where a used cell is.
    #[inline(always)]
    fn position_of_cell(&self, cell: u32) -> Position
        requires { IsFilled self.now.block cell }
        ensures { get_or self.now.block cell None
            ≡ Some (node result.prev result.next result.list (at self.now.block cell).item) }
    {
        let node = self.block.get(cell as usize);
        Position {
            prev: node.prev,
            next: node.next,
            list: node.list,
        }
    }

    /// A cell that was used and is free.
    #[inline(always)]
    fn take_used_free_cell(&mut self) -> u32
        requires arena { IsArena self.old }
        requires some { 0 < self.old.spares }
        ensures lacks { IsBlank result self.new }
        ensures same { (rings_of (emptied result self.new) ≡ rings_of self.old)
            × (self.new.capacity ≡ self.old.capacity) }
        ensures used { self.new.used ≡ self.old.used }
    {
        let cell = self.free;
        self.free = self.next(cell);
        self.spares -= 1;
        cell
    }

    /// A cell that was never used.
    fn take_unused_cell(&mut self) -> u32
        requires arena { IsArena self.old }
        requires some { self.old.used < self.old.capacity }
        ensures lacks { IsBlank result self.new }
        ensures same { (rings_of (emptied result self.new) ≡ rings_of self.old)
            × (self.new.capacity ≡ self.old.capacity) }
    {
        let cell = self.used;
        let node = Node {
            prev: 0,
            next: 0,
            list: 0,
            item: None,
        };
        self.block.put(cell as usize, node);
        self.used = cell + 1;
        cell
    }

    /// How many cells are free.
    pub(crate) fn free(&self) -> u32
        requires { IsArena self.now }
        ensures { result ≡ free_cells (model self.now) }
    {
        self.spares + (self.capacity - self.used)
    }

    /// A free cell, if there is one. It isn't free then.
    #[inline(always)]
    pub(crate) fn take_free_cell(&mut self) -> Option<u32>
        requires { IsArena self.old }
        ensures lacks { IfSome result (λ x. IsBlank x self.new) }
        ensures same { IfSome result (λ x. (rings_of (emptied x self.new) ≡ rings_of self.old)
            × (self.new.capacity ≡ self.old.capacity)) }
        ensures none { IfNone result (self.new ≡ self.old) }
        ensures full { IsNone result ↔ (free_cells (model self.old) ≡ 0) }
        ensures used { OnSome result (0 < self.old.spares → self.new.used ≡ self.old.used) }
    {
        if self.spares > 0 {
            return Some(self.take_used_free_cell());
        }
        if self.used < self.capacity {
            return Some(self.take_unused_cell());
        }
        None
    }

    /// How many lists there are.
    #[inline(always)]
    pub(crate) fn lists(&self) -> u32
        requires { length self.now.heads.items ≤ 2 ^ 21 }
        ensures { result ≡ length self.now.heads.items }
    {
        self.heads.len() as u32
    }

    /// How many cells a list has.
    #[inline(always)]
    pub(crate) fn count(&self, list: u32) -> u32
        requires { list < length self.now.heads.items }
        ensures { result ≡ (get_or self.now.heads.items list no_head).count }
    {
        self.heads[list as usize].count
    }

    /// The first cell of a list, or the number of its end.
    #[inline(always)]
    pub(crate) fn first(&self, list: u32) -> u32
        requires { list < length self.now.heads.items }
        ensures { result ≡ (get_or self.now.heads.items list no_head).first }
    {
        self.heads[list as usize].first
    }

    /// The cell after a used one, or the number of the end of its list.
    #[inline(always)]
    pub(crate) fn next(&self, cell: u32) -> u32
        requires { IsFilled self.now.block cell }
        ensures { (n : Node T) → get_or self.now.block cell None ≡ Some n → result ≡ n.next }
    {
        self.block.get(cell as usize).next
    }

    /// Whether a used cell is on a list.
    pub(crate) fn is_on_list(&self, cell: u32) -> bool
        requires { IsFilled self.now.block cell }
        ensures { (n : Node T) → get_or self.now.block cell None ≡ Some n →
            result ≡ nat_lt n.list (length self.now.heads.items) }
    {
        (self.block.get(cell as usize).list as usize) < self.heads.len()
    }

    /// The value of a cell that has one.
    #[inline(always)]
    pub(crate) fn value(&self, cell: u32) -> &T
        requires { (n : Node T) × (v : T) × (get_or self.now.block cell None ≡ Some n) ×
            (n.item ≡ Some v) }
        ensures { (n : Node T) → get_or self.now.block cell None ≡ Some n →
            n.item ≡ Some result.now }
    {
        self.block.get(cell as usize).item.as_ref().unwrap()
    }

    /// The value of a cell that has one, to write to.
    #[inline(always)]
    pub(crate) fn value_mut(&mut self, cell: u32) -> &mut T
        requires { (n : Node T) × (v : T) × (get_or self.old.block cell None ≡ Some n) ×
            (n.item ≡ Some v) }
        ensures* writes_back { sem 𝓛 (lends_value T.row self.entry cell result) }
        ensures value { (n : Node T) → get_or self.old.block cell None ≡ Some n →
            n.item ≡ Some result.now }
    {
        self.block.get_mut(cell as usize).item.as_mut().unwrap()
    }
}
