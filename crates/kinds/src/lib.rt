// The kinds of components. No other crate lists them.
#![tactic(auto)]

pub mod component;
pub mod fields;
pub mod kind;
pub mod res;
pub mod shape;
pub mod types;
pub mod value;

pub use component::Component;
pub use fields::Fields;
pub use kind::Kind;
pub use res::{Event, Res};
pub use shape::Shape;
pub use types::{
    Armor, Charge, Damage, Energy, Frozen, Health, Hidden, Home, Level, Marked, Mass, Position,
    Range, Rank, Score, Sleeping, Target, Team, Timer, Velocity,
};
pub use value::Value;
