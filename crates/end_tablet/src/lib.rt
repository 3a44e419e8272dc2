// The tablet's end: a list that is opened, writes its present ask and takes answer lines.
#![tactic(auto)]

mod asking;
mod items;
mod lists;
mod opening;
mod probes;
mod taking;

pub use asking::write_ask;
pub use lists::is_sound;
pub use opening::open_list;
pub use taking::take_line;
