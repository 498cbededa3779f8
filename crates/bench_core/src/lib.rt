// The commands of the bench. The bench has up to 16 points, the links between them and the frames that they have sent.
#![tactic(auto)]

mod calling;
pub mod interpreter;
mod settle;
mod traffic;
