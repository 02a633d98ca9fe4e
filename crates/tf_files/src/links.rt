ghost use Rattle.std.specs.Prelude.{◌≡◌, [], map, codes, None, Ok, IfOk, OnOk, IfErr};
ghost use Rattle.tf_flow.specs.Outline.{connection_of};
ghost use Rattle.tf_files.specs.document.Reading.{RefusesWith, each, known_only as read_known, unknown_key, optional as spelled_perhaps};
ghost use Rattle.tf_files.specs.document.Places.{place_of};
ghost use Rattle.tf_files.specs.FlowFile.{link_keys as keys_of, link_table as link_of, link_form as link_spelled, links_form as links_spelled};
ghost use Rattle.toml.specs.View.{view, items_view, table_view};

use crate::document::{Field, FileFault, Path, decider_of, has_key, item_at, known_only, optional};
use crate::keys::name_at;
use crate::lists::add;
use std::alloc::Global;
use tf_flow::Link;
use toml::{Table, Value};

/// The links at the key `links`; none where it isn't there.
pub fn links_at(alloc: Global, path: &Path, table: &Table) -> Result<Vec<Link>, FileFault>
    ensures ok { IfOk result (λ links. spelled_perhaps path.now (codes "links")
        (table_view table.now) [] links_spelled ≡ Ok (map connection_of links.items)) }
    ensures refused { IfErr result (RefusesWith (spelled_perhaps path.now (codes "links")
        (table_view table.now) [] links_spelled)) }
{
    match optional(path, "links", table) {
        Some(field) => links_form(alloc, &field),
        None => Ok(Vec::new(alloc)),
    }
}

/// The links of an array.
fn links_form(alloc: Global, field: &Field<'_>) -> Result<Vec<Link>, FileFault>
    ensures ok { IfOk result (λ links. links_spelled (place_of field.now) (view field.now.value.now)
        ≡ Ok (map connection_of links.items)) }
    ensures refused { IfErr result (RefusesWith (links_spelled (place_of field.now) (view field.now.value.now))) }
{
    let array = field.items(alloc)?;
    let path = field.path(alloc)?;
    each_link(alloc, &path, array)
}

/// The links of an array's items.
fn each_link(alloc: Global, path: &Path, array: &[Value]) -> Result<Vec<Link>, FileFault>
    ensures ok { IfOk result (λ links. each link_spelled path.now 0 (items_view array.now)
        ≡ Ok (map connection_of links.items)) }
    ensures refused { IfErr result (RefusesWith (each link_spelled path.now 0 (items_view array.now))) }
{
    let mut links = Vec::with_capacity(alloc, array.len())?;
    for (number, value) in array.iter().enumerate() {
        let field = item_at(path, number, value);
        let link = link_form(alloc, &field)?;
        add(&mut links, link)?;
    }
    Ok(links)
}

/// The link of an item.
fn link_form(alloc: Global, field: &Field<'_>) -> Result<Link, FileFault>
    ensures ok { IfOk result (λ link. link_spelled (place_of field.now) (view field.now.value.now)
        ≡ Ok (connection_of link)) }
    ensures refused { IfErr result (RefusesWith (link_spelled (place_of field.now) (view field.now.value.now))) }
{
    let table = field.table(alloc)?;
    let path = field.path(alloc)?;
    link_table(alloc, &path, table)
}

/// The link of a table.
fn link_table(alloc: Global, path: &Path, table: &Table) -> Result<Link, FileFault>
    ensures ok { IfOk result (λ link. link_of path.now (table_view table.now) ≡ Ok (connection_of link)) }
    ensures refused { IfErr result (RefusesWith (link_of path.now (table_view table.now))) }
{
    known_keys(alloc, path, table)?;
    let from = name_at(alloc, path, "from", table)?;
    let to = name_at(alloc, path, "to", table)?;
    let decider = decider_of(alloc, path, table)?;
    Ok(Link { from, to, decider })
}

/// RefusesWith a link's table for an unknown key; the depth of a decider is one where there is no decider.
fn known_keys(alloc: Global, path: &Path, table: &Table) -> Result<(), FileFault>
    ensures ok { OnOk result (unknown_key (keys_of (table_view table.now)) (table_view table.now) ≡ None) }
    ensures refused { IfErr result (RefusesWith (read_known path.now (keys_of (table_view table.now))
        (table_view table.now) (Ok (table_view table.now)))) }
{
    if has_key(table, "decider") {
        return known_only(alloc, path, &["from", "to", "decider", "depth"], table);
    }
    known_only(alloc, path, &["from", "to", "decider"], table)
}
