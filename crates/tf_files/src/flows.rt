ghost use Rattle.std.specs.Prelude.{◌≡◌, [], suc, map, codes, None, Ok, IfOk, IfErr};
ghost use Rattle.tf_files.specs.document.Reading.{RefusesWith, each, required as spelled_at, optional as spelled_perhaps, array_of, binds_form as binds_spelled};
ghost use Rattle.tf_files.specs.document.Places.{place_of};
ghost use Rattle.tf_flow.specs.Tree.{tree_of};
ghost use Rattle.tf_flow.specs.Plan.{as_written, item_as_written};
ghost use Rattle.tf_files.specs.FlowFile.{root_form as root_spelled, flow_inside as inside_spelled, item_form as item_spelled, item_table as item_of, own_retry as retry_of_flow, nested_flow as nested_of, task_item as task_of, pattern_form as pattern_spelled, pattern_named as pattern_of, is_flow_table as is_table_of_flow};
ghost use Rattle.toml.specs.View.{view, items_view, table_view};

use crate::document::{
    Field, FileFault, Path, binds_form, has_key, item_at, known_only, optional, required,
    retry_form, task_form,
};
use crate::keys::name_at;
use crate::links::links_at;
use crate::lists::add;
use std::alloc::Global;
use tf_flow::{Bind, Flow, FlowKind, Item, Items, Limit, Links, PlanFault, Retry};
use tf_values::Name;
use toml::{Table, Value};

/// A root flow with a store.
#[derive(Drop)]
pub struct RootFlow {
    pub flow: Flow,
    pub store: Vec<Bind>,
}

/// The root flow of a document, with the store.
pub fn root_form(alloc: Global, document: &Table) -> Result<RootFlow, FileFault>
    ensures ok { IfOk result (λ made. root_spelled (table_view document.now)
        ≡ Ok record { root = as_written (tree_of made.flow); store = made.store.items }) }
    ensures refused { IfErr result (RefusesWith (root_spelled (table_view document.now))) }
{
    let path = Path::root(alloc);
    known_only(
        alloc,
        &path,
        &["name", "kind", "store", "retry", "items", "links"],
        document,
    )?;
    let name = name_at(alloc, &path, "name", document)?;
    let kind = kind_at(alloc, &path, document)?;
    let store = store_at(alloc, &path, document)?;
    let flow = flow_inside(alloc, 15, &path, document, name, kind)?;
    Ok(RootFlow { flow, store })
}

/// The values at the key `store`; none where it isn't there.
fn store_at(alloc: Global, path: &Path, table: &Table) -> Result<Vec<Bind>, FileFault>
    ensures ok { IfOk result (λ store. spelled_perhaps path.now (codes "store")
        (table_view table.now) [] binds_spelled ≡ Ok store.items) }
    ensures refused { IfErr result (RefusesWith (spelled_perhaps path.now (codes "store")
        (table_view table.now) [] binds_spelled)) }
{
    match optional(path, "store", table) {
        Some(field) => binds_form(alloc, &field),
        None => Ok(Vec::new(alloc)),
    }
}

/// The kind of flow at the key `kind`, which must be there.
#[tactic(auto, using(crate::proofs::ReadingLemmas::required_stops, crate::proofs::ReadingLemmas::required_goes))]
fn kind_at(alloc: Global, path: &Path, table: &Table) -> Result<FlowKind, FileFault>
    ensures ok { IfOk result (λ kind. spelled_at path.now (codes "kind") (table_view table.now) pattern_spelled
        ≡ Ok kind) }
    ensures refused { IfErr result (RefusesWith (spelled_at path.now (codes "kind")
        (table_view table.now) pattern_spelled)) }
{
    let field = required(alloc, path, "kind", table)?;
    pattern_form(alloc, &field)
}

/// A kind of flow: `WrongKind` where the value is no string, `BadChoice` where it is another word.
fn pattern_form(alloc: Global, field: &Field<'_>) -> Result<FlowKind, FileFault>
    ensures ok { IfOk result (λ kind. pattern_spelled (place_of field.now) (view field.now.value.now) ≡ Ok kind) }
    ensures refused { IfErr result (RefusesWith (pattern_spelled (place_of field.now) (view field.now.value.now))) }
{
    let word = field.word(alloc)?;
    pattern_named(alloc, field, word)
}

/// The kind of flow that a word is.
fn pattern_named(alloc: Global, field: &Field<'_>, word: &str) -> Result<FlowKind, FileFault>
    ensures ok { IfOk result (λ kind. pattern_of (place_of field.now) word.now ≡ Ok kind) }
    ensures refused { IfErr result (RefusesWith (pattern_of (place_of field.now) word.now)) }
{
    match word {
        "linear" => Ok(FlowKind::Linear),
        "unordered" => Ok(FlowKind::Unordered),
        "graph" => Ok(FlowKind::Graph),
        _ => Err(FileFault::BadChoice(field.path(alloc)?)),
    }
}

/// The flow of a name and a kind with what else its table spells. `left` is how many flows may still
/// stand in one another within it.
#[cycle(flows)]
#[tactic(auto, using(tf_flow::proofs::WrittenLemmas::flow_written))]
fn flow_inside(
    alloc: Global,
    left: u8,
    path: &Path,
    table: &Table,
    name: Name,
    kind: FlowKind,
) -> Result<Flow, FileFault>
    ensures ok { IfOk result (λ flow. inside_spelled left path.now (table_view table.now) name kind
        ≡ Ok (as_written (tree_of flow))) }
    ensures refused { IfErr result (RefusesWith (inside_spelled left path.now (table_view table.now) name kind)) }
{
    let retry = retry_at(alloc, path, table)?;
    let items = items_at(alloc, left, path, table)?;
    let links = links_at(alloc, path, table)?;
    Ok(Flow {
        name,
        kind,
        retry,
        items: Items::make(items),
        links: Links::make(links),
    })
}

/// The retry controller at the key `retry`; none where it isn't there.
fn retry_at(alloc: Global, path: &Path, table: &Table) -> Result<Option<Retry>, FileFault>
    ensures ok { IfOk result (λ retry. spelled_perhaps path.now (codes "retry")
        (table_view table.now) None retry_of_flow ≡ Ok retry) }
    ensures refused { IfErr result (RefusesWith (spelled_perhaps path.now (codes "retry")
        (table_view table.now) None retry_of_flow)) }
{
    match optional(path, "retry", table) {
        Some(field) => own_retry(alloc, &field),
        None => Ok(None),
    }
}

/// A flow's own retry controller.
fn own_retry(alloc: Global, field: &Field<'_>) -> Result<Option<Retry>, FileFault>
    ensures ok { IfOk result (λ retry. retry_of_flow (place_of field.now) (view field.now.value.now) ≡ Ok retry) }
    ensures refused { IfErr result (RefusesWith (retry_of_flow (place_of field.now) (view field.now.value.now))) }
{
    let retry = retry_form(alloc, field)?;
    Ok(Some(retry))
}

/// The items at the key `items`; none where it isn't there.
#[cycle(flows)]
fn items_at(alloc: Global, left: u8, path: &Path, table: &Table) -> Result<Vec<Item>, FileFault>
    ensures ok { IfOk result (λ items. spelled_perhaps path.now (codes "items") (table_view table.now) []
        (array_of (item_spelled left)) ≡ Ok (map item_as_written items.items)) }
    ensures refused { IfErr result (RefusesWith (spelled_perhaps path.now (codes "items") (table_view table.now) []
        (array_of (item_spelled left)))) }
{
    match optional(path, "items", table) {
        Some(field) => items_form(alloc, left, &field),
        None => Ok(Vec::new(alloc)),
    }
}

/// The items of an array.
#[cycle(flows)]
fn items_form(alloc: Global, left: u8, field: &Field<'_>) -> Result<Vec<Item>, FileFault>
    ensures ok { IfOk result (λ items. array_of (item_spelled left) (place_of field.now) (view field.now.value.now)
        ≡ Ok (map item_as_written items.items)) }
    ensures refused { IfErr result (RefusesWith (array_of (item_spelled left) (place_of field.now)
        (view field.now.value.now))) }
{
    let array = field.items(alloc)?;
    let path = field.path(alloc)?;
    each_item(alloc, left, &path, array)
}

/// Each item of an array.
#[cycle(flows)]
fn each_item(alloc: Global, left: u8, path: &Path, array: &[Value]) -> Result<Vec<Item>, FileFault>
    ensures ok { IfOk result (λ items. each (item_spelled left) path.now 0 (items_view array.now)
        ≡ Ok (map item_as_written items.items)) }
    ensures refused { IfErr result (RefusesWith (each (item_spelled left) path.now 0 (items_view array.now))) }
{
    let mut items = Vec::with_capacity(alloc, array.len())?;
    for (number, value) in array.iter().enumerate() {
        let field = item_at(path, number, value);
        let item = item_form(alloc, left, &field)?;
        add(&mut items, item)?;
    }
    Ok(items)
}

/// An item: `WrongKind` where the value is no table.
#[cycle(flows)]
fn item_form(alloc: Global, left: u8, field: &Field<'_>) -> Result<Item, FileFault>
    ensures ok { IfOk result (λ item. item_spelled left (place_of field.now) (view field.now.value.now)
        ≡ Ok (item_as_written item)) }
    ensures refused { IfErr result (RefusesWith (item_spelled left (place_of field.now) (view field.now.value.now))) }
{
    let table = field.table(alloc)?;
    let path = field.path(alloc)?;
    item_table(alloc, left, &path, table)
}

/// The item of a table: a flow where it has the key `flow` and not the key `task`, else a task.
#[cycle(flows)]
fn item_table(alloc: Global, left: u8, path: &Path, table: &Table) -> Result<Item, FileFault>
    ensures ok { IfOk result (λ item. item_of left path.now (table_view table.now) ≡ Ok (item_as_written item)) }
    ensures refused { IfErr result (RefusesWith (item_of left path.now (table_view table.now))) }
{
    if !is_flow_table(table) {
        return task_item(alloc, path, table);
    }
    let flow = nested_flow(alloc, left, path, table)?;
    Ok(Item::Flow(flow))
}

/// Whether an item's table is that of a flow.
fn is_flow_table(table: &Table) -> bool
    ensures { result ≡ is_table_of_flow (table_view table.now) }
{
    has_key(table, "flow") && !has_key(table, "task")
}

/// The task of an item's table.
fn task_item(alloc: Global, path: &Path, table: &Table) -> Result<Item, FileFault>
    ensures ok { IfOk result (λ item. task_of path.now (table_view table.now) ≡ Ok (item_as_written item)) }
    ensures refused { IfErr result (RefusesWith (task_of path.now (table_view table.now))) }
{
    let task = task_form(alloc, path, table)?;
    Ok(Item::Task(task))
}

/// The nested flow of a table. Where none may stand, it is refused before its keys are looked at.
#[cycle(flows)]
#[tactic(auto, using(crate::proofs::NestedLemmas::below))]
fn nested_flow(alloc: Global, left: u8, path: &Path, table: &Table) -> Result<Flow, FileFault>
    ensures ok { IfOk result (λ flow. nested_of left path.now (table_view table.now) ≡ Ok (as_written (tree_of flow))) }
    ensures refused { IfErr result (RefusesWith (nested_of left path.now (table_view table.now))) }
{
    if left == 0 {
        return Err(FileFault::Plan(PlanFault::TooLarge {
            which: Limit::Nesting,
            n: 17,
        }));
    }
    flow_table(alloc, left - 1, path, table)
}

/// The flow of a table. `left` is how many flows may still stand in one another within it.
#[cycle(flows)]
fn flow_table(alloc: Global, left: u8, path: &Path, table: &Table) -> Result<Flow, FileFault>
    ensures ok { IfOk result (λ flow. nested_of (suc left) path.now (table_view table.now)
        ≡ Ok (as_written (tree_of flow))) }
    ensures refused { IfErr result (RefusesWith (nested_of (suc left) path.now (table_view table.now))) }
{
    known_only(
        alloc,
        path,
        &["flow", "kind", "retry", "items", "links"],
        table,
    )?;
    let name = name_at(alloc, path, "flow", table)?;
    let kind = kind_at(alloc, path, table)?;
    flow_inside(alloc, left, path, table, name, kind)
}
