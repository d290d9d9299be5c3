// The kinds by which a document tells its values apart.
use json_subset::{Doc, Json};
use std::alloc::Global;
use std::test::Fail;

const PARTS: &str =
    " {\"a\\u0062\" : [ 1 , -2.5 , 1e3, 1234567890123456789.5, \"x\\n\" ], \"t\": true, \"n\": null} ";

const ITEMS: [&str; 5] = [
    "Whole(1) 1",
    "Decimal -2.5",
    "Wide 1e3",
    "Wide 1234567890123456789.5",
    "Text \"x\\n\"",
];

fn parts(alloc: Global) -> Result<Doc, Fail> {
    Ok(Json::read(alloc, PARTS.as_bytes())?)
}

// The kind and the source text of an item of the list.
fn item_told(alloc: Global, doc: &Doc, i: u32) -> Result<String, Fail> {
    let list = doc.member(doc.root(), "ab").ok_or("no member")?;
    let item = doc.item(list, i).ok_or("no item")?;
    let kind = doc.kind(item);
    let span = doc.span(item);
    Ok(format!(in alloc; "{kind:?} {span}")?)
}

#[test]
fn items_have_their_kinds_and_spans(rt: HostRuntime) -> Result<(), Fail> {
    let doc = parts(rt.alloc())?;
    for i in 0..5 {
        let got = item_told(rt.alloc(), &doc, i)?;
        assert_eq!(rt; got.as_str(), ITEMS[i as usize]);
    }
    Ok(())
}
