//! The parts of a litmus text: its first lines, the initial block, the table and the condition.
#![tactic(auto)]

mod atoms;
mod blocks;
mod cells;
mod conditions;
mod expressions;
mod extent;
mod forms;
mod headers;
mod instructions;
mod items;
mod laws;
mod syntax;
mod table;

pub use blocks::read_block;
pub use conditions::read_condition;
pub use extent::readable_lines;
pub use headers::read_preamble;
pub use items::same_name;
pub use laws::rows_have_this_shape;
pub use syntax::{Cell, Expr, Instruction, Item, Name, Quantifier, Setting, Width};
pub use table::read_table;
