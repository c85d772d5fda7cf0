//! Pages of HTML that need nothing from outside: that of a hill, with or without links to rounds that a service shows,
//! and that of a ranking.
//!
//! It knows a hill with the results that it keeps, or the rows of a ranking and the results of their matches, and no
//! store, files or sockets. What others wrote is escaped by `koth_text`. The modules, in the order in which the data
//! pass:
//!
//! - `sign`: what the page says that the hill doesn't know; `links`: what the rounds of a match lead to;
//! - `ranked`: the rows of the tables; `results`: what is asked of matches; `entered`: the rows of a hill;
//! - `cells`: numbers and names in the cells of a table; `shade`: how cells of matches are coloured;
//! - `parts`: what is the same on every page, with the style sheet;
//! - `top`: the title, the king, and how to submit;
//! - `settings`, `standing` and `matches`: the settings, the table, and the matches; `tables`: the two of them;
//! - `page`: the page of a hill; `ranking`: that of a ranking.
//!
//! A page is exactly what its definition in `specs` makes of the hill, or of rows and results. Whatever a warrior, its
//! author or its file is called, no tag and no value of an attribute begins or ends with that. Each byte is ASCII, the
//! seed is not shown, and no page has a script.
#![tactic(auto)]

mod cells;
mod entered;
mod links;
mod matches;
mod page;
mod parts;
mod ranked;
mod ranking;
mod results;
mod settings;
mod shade;
mod sign;
mod standing;
mod tables;
mod top;

pub use koth_text::{put_escaped, put_number};
pub use links::Links;
pub use page::hill_page;
pub use ranked::{Origin, Ranked};
pub use ranking::{RANKING, ranking_page};
pub use results::Results;
pub use sign::{Address, Sign, TITLE};
