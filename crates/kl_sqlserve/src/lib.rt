//! A server of tables that answers statements of SQL.
//!
//! Statements mean what ISO 9075 says of tables without NULL. A join goes table by table, next to one that an equality
//! binds to those before it, wherever FROM has it: it holds the rows that it has chosen and, of each table, an index by the
//! columns that have to be equal to columns of tables before.
//!
//! What `rt plant` lets through here: bodies that answer want of memory, which no contract of this project ties to a
//! refused growth. A test with ample memory calls each public function.
#![tactic(auto)]

mod asking;
mod attaching;
mod chosen;
mod driver;
mod fitting;
mod handing;
mod index;
mod joined;
mod keys;
mod levels;
mod opening;
mod placed;
mod placing;
mod query;
mod reordering;
mod seen;
mod showing;
mod side;
mod tests_of_rows;

pub use driver::SqlServer;
