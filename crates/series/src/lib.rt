// Series: numbers of a state that are told after each so many runs, their names, and their text.
#![tactic(auto)]

pub mod chart;
pub mod csv;
pub mod reading;
pub mod rows;
pub mod series;

pub use rows::Row;
pub use series::Series;
