//! The objects of parts that are larger than the memory: those that ascend in their part stay there, and the others are kept in memory
//! or in scratch, in sorted runs.
//!
//! Begin with [`ObjectLog`], which takes objects, and [`StoredObjects::merge`].
//!
//! [`StoredObjects::pick`] gives a few objects by their identifiers. While a stretch that stays in its part is read, it is divided into
//! cuts: a [`Cut`] begins in some piece of the part, and its first and last identifier are kept. If one stretch has all objects, `pick`
//! reads only cuts in whose range a wanted identifier is. Otherwise it reads all objects. Where it is known that no identifier has two
//! contents, [`StoredObjects::pick_agreed`] reads only such cuts of all stretches, and of the runs in scratch. It looks them up in
//! [`CutLists`], which [`StoredObjects::cut_lists`] makes once for all picks.
#![tactic(auto)]

mod any_cut;
mod cut;
mod cut_lists;
mod cut_reader;
mod dividing;
mod giving;
mod growing;
mod identifying;
mod keeping;
pub mod laws;
mod merging;
mod next_object;
mod object_fault;
mod object_log;
mod open_cut;
mod opening;
mod picking;
mod picking_agreed;
mod picking_sink;
mod row_store;
mod searched;
mod seeking;
mod stored_objects;
mod stretch;
mod stretch_cursor;
mod stretch_fault;
pub mod stretch_laws;
mod wanted;

pub use cut::Cut;
pub use cut_lists::CutLists;
pub use identifying::object_id;
pub use keeping::Keeping;
pub use object_fault::ObjectFault;
pub use object_log::ObjectLog;
pub use row_store::RowStore;
pub use stored_objects::StoredObjects;
pub use stretch::Stretch;
pub use stretch_cursor::StretchCursor;
pub use stretch_fault::StretchFault;
