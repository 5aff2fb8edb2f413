// What every table of figures is printed and counted with: a line of what is expected and what it got, lists
// beside each other, the rows that agree, and parts of what is lent.
#![tactic(auto)]

pub mod output; // where figures are printed
pub mod lines; // a figure's line, parts of what is lent and entries put
pub mod rows; // the rows of a table, and the count of those that agree
pub mod lists; // lists beside each other
