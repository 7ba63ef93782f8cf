// The book: the types that its chapters in specs/ speak of. Its only code is what must stand with a type: how a value is made, judged, stepped, numbered and
// printed. No public function has a `requires`.
#![tactic(auto)]

pub mod data;
pub mod frame;
pub mod header;
pub mod receive;
pub mod refusal;
pub mod send;
pub mod slots;
pub mod stats;
pub mod subscription;
pub mod tail;
pub mod types;
