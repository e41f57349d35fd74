//! Procedures that make objects, over a boxed server.
#![tactic(auto)]

mod dirs;
mod files;
mod links;
mod make;
mod new_attr;
mod place;
mod resize;
mod spot;

pub use dirs::make_dir;
pub use files::create;
pub use links::symlink;
