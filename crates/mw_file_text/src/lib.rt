//! Writes what the bytes of a file without damage say, in lines.
//!
//! There is a line for each fact, in this order. The first line is there only if the second layout is valid:
//!
//! | line | tells |
//! |---|---|
//! | `second layout at A` | the second layout begins at byte A |
//! | `words W` | it has W words |
//! | `places P` | it has P record places, in the layout that is valid |
//! | `open P A V` | the open record of place P gives the value V to the word at address A |
//! | `word A V` | the word at address A, with the open records applied, is V |
//!
//! Used by: mwshow, mw_server_pages. docs/OPERATING describes these lines for users: change both together.
#![tactic(auto)]

mod lines;

pub use lines::show_image;
