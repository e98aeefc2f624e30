//! The checker and the runner for callers in C, C++ and Python: a static library whose exports `tardis.h` declares.
#![tactic(auto)]

mod answers;
mod arrays;
mod expected;
mod histories;
mod lacks;
mod options;
mod plain;
mod system_looks;
mod system_parts;
mod systems;
mod texts;
mod version;
