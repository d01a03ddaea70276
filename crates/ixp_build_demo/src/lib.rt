//! How large a demo exchange is, and how the text of its route server follows edits.
//!
//! [`counts`] counts the members, the sessions and the patterns of prefix sets by the rows of a valid
//! registry, without making a text: `specs/Counts.antt` says that the patterns are those of the texts.
//! [`put_counts`] writes them in three lines.
//!
//! [`builds`] shows that a text follows edits. After all texts are made, the staff sets the rules of one
//! member after the other, of a hundred at most. After each edit the parts that it touches are regenerated;
//! `specs/Builds.antt` says how many these are. In the end the text is compared with that of full
//! generation. [`put_builds`] writes both in two lines. That this is so after any accepted edits of any
//! registry is the law [`accepted_edits_build_fully`].
#![tactic(auto)]

mod build_figures;
mod comparing;
mod counting;
mod figures;
mod following;
mod laws;
mod requests;
mod sessions;

pub use build_figures::{Builds, put_builds};
pub use counting::counts;
pub use figures::{Counts, put_counts};
pub use following::builds;
pub use laws::accepted_edits_build_fully;
