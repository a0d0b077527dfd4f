//! `share_listings`: listings of stores, of items and of containers, byte for byte.

ghost use Rattle.std.specs.Prelude.{◌≡◌, ◌<◌, ◌≤◌, IfOk};
ghost use Rattle.listing_plan.specs.Plans.{IsWritable};
ghost use Rattle.share_listings.specs.Answers.{HaveFew};

use crate::stores::{Stores, after};
use item_model::{Look, Meta, Query, Range, Target};
use listing_plan::Plan;
use outside_net::{MemSink, Sink};
use share_listings::{full_items, full_target, items_listing, listing};
use song_query::{Steps, read};
use std::alloc::{AllocError, Global};
use std::marker::Brand;
use std::process::Abort;
use std::sync::ledger::{Blank, Ledger};
use std::test::Fail;

/// The function that returns a listing.
#[derive(Clone, Copy)]
enum By {
    /// `items_listing`, from the store of items.
    Items,
    /// `full_items`.
    AllItems,
    /// `listing`, whose full listing of all items starts from their ids.
    Stores,
    /// `full_target`.
    AllStores,
}

/// The function, the request and the bytes of the listing. A request has a target, a query and names of properties,
/// each left out if it is empty, a base and a range.
type Case = (
    By,
    Target,
    &'static str,
    &'static str,
    u32,
    Range,
    &'static [u8],
);

fn query(alloc: Global, text: &str) -> Result<Option<Query>, AllocError> {
    if text.is_empty() {
        return Ok(None);
    }
    match read(alloc, text) {
        Ok(query) => Ok(Some(query)),
        Err(_) => Err(AllocError),
    }
}

fn look(alloc: Global, case: &Case) -> Result<Look, AllocError> {
    let query = query(alloc, case.2)?;
    match Meta::read(alloc, case.3) {
        Ok(meta) => Ok(Look {
            query,
            meta,
            base: case.4,
            range: case.5,
        }),
        Err(_) => Err(AllocError),
    }
}

#[tactic(auto, using(crate::proofs::Few::few_items))]
fn from_items(alloc: Global, stores: &Stores, look: Look) -> Result<Plan, AllocError>
    requires { HaveFew stores.now.items stores.now.lists }
    ensures { IfOk result (λ plan. IsWritable plan) }
{
    items_listing(alloc, &stores.items, look)
}

#[tactic(auto, using(crate::proofs::Few::few_items))]
fn all_items(alloc: Global, stores: &Stores, look: Look) -> Result<Plan, AllocError>
    requires { HaveFew stores.now.items stores.now.lists }
    ensures { IfOk result (λ plan. IsWritable plan) }
{
    full_items(alloc, &stores.items, look)
}

fn from_stores<L: Ledger>(
    blank: Blank,
    alloc: Global,
    stores: &Stores,
    look: Look,
    target: Target,
) -> Result<Plan, AllocError>
    requires name { blank.name ≡ L.name }
    requires parts { blank.parts ≡ L.parts }
    requires any { 0 < blank.parts }
    requires few { HaveFew stores.now.items stores.now.lists }
    ensures { IfOk result (λ plan. IsWritable plan) }
{
    let (items, lists) = (&stores.items, &stores.lists);
    let ids = items.ids()?;
    let mut steps = Steps::<L>::open(blank);
    let from = Some(ids.as_slice());
    let plan = listing(alloc, items, lists, target, look, from, &mut steps)?;
    Ok(plan)
}

fn all_stores(
    alloc: Global,
    stores: &Stores,
    target: Target,
    look: Look,
) -> Result<Plan, AllocError>
    requires { HaveFew stores.now.items stores.now.lists }
    ensures { IfOk result (λ plan. IsWritable plan) }
{
    full_target(alloc, &stores.items, &stores.lists, target, look)
}

fn planned(alloc: Global, stores: &Stores, case: &Case) -> Result<Plan, AllocError>
    requires { HaveFew stores.now.items stores.now.lists }
    ensures { IfOk result (λ plan. IsWritable plan) }
{
    let look = look(alloc, case)?;
    match case.0 {
        By::Items => from_items(alloc, stores, look),
        By::AllItems => all_items(alloc, stores, look),
        By::Stores => from_stores::<Brand>(Blank::new(1), alloc, stores, look, case.1),
        By::AllStores => all_stores(alloc, stores, case.1, look),
    }
}

// Without clauses on the bytes, so that other proofs do not unfold a body.
fn is_written<W: Sink>(plan: &Plan, sink: &mut W) -> bool
    requires { IsWritable plan.now }
{
    plan.write(sink).is_ok()
}

fn shows(sink: &MemSink, bytes: &[u8]) -> bool {
    sink.taken() == bytes
}

/// Returns whether a plan writes these bytes, as many as it states.
fn writes(alloc: Global, plan: &Plan, bytes: &[u8]) -> Result<bool, AllocError>
    requires { IsWritable plan.now }
{
    let mut sink = MemSink::new(alloc, 1024, 7, &[])?;
    let len = plan.body_len();
    let is_whole = is_written(plan, &mut sink);
    Ok(is_whole && shows(&sink, bytes) && len == bytes.len() as u64)
}

/// Returns whether a sink that fails at its second call has the first 40 bytes.
fn is_cut(alloc: Global, plan: &Plan, bytes: &[u8]) -> Result<bool, AllocError>
    requires { IsWritable plan.now }
{
    let mut sink = MemSink::new(alloc, 200, 40, &[2])?;
    let is_broken = !is_written(plan, &mut sink);
    Ok(is_broken && bytes.len() >= 40 && shows(&sink, bytes.split_at(40).0))
}

/// Returns whether a listing has its bytes, and whether a write that fails keeps the first ones.
fn is_answered(alloc: Global, stores: &Stores, case: &Case) -> Result<bool, AllocError>
    requires { HaveFew stores.now.items stores.now.lists }
{
    let plan = planned(alloc, stores, case)?;
    let is_whole = writes(alloc, &plan, case.6)?;
    let has_first = is_cut(alloc, &plan, case.6)?;
    Ok(is_whole && has_first)
}

/// Compares the listings of stores.
fn answer(
    rt: &impl Abort,
    alloc: Global,
    stores: &Stores,
    last: &str,
    cases: &[Case],
) -> Result<(), Fail>
    requires { HaveFew stores.now.items stores.now.lists }
{
    for (n, case) in cases.iter().enumerate() {
        assert!(rt; is_answered(alloc, stores, case)?, "{n} after {last}");
    }
    Ok(())
}

/// Compares the listings of stores after batches.
fn answer_after(
    rt: &impl Abort,
    alloc: Global,
    first: &[&'static str],
    last: &str,
    cases: &[Case],
) -> Result<(), Fail> {
    let stores = after(alloc, first, last)?;
    answer(rt, alloc, &stores, last, cases)
}

const PUT_7: &str = "op,kind,id,dmap.itemname\nput,item,7,A\n";

/// Six songs: names, artists, albums and media kinds.
const SIX: &str =
    "op,kind,id,dmap.itemname,daap.songartist,daap.songalbum,com.apple.itunes.mediakind\nput,item,1,Hey,Ann,One,1\nput,item,2,it's late,Bob,,1\nput,item,3,Talk,Cy,Pod,4\nput,item,4,Move,Di,Film,32\nput,item,5,Quiet,Ed,Two,\nput,item,6,Late,ann,two,1\n";

/// The first song is of the kind 4.
const HEY_IS_4: &str =
    "op,kind,id,dmap.itemname,daap.songartist,daap.songalbum,com.apple.itunes.mediakind\nput,item,1,Hey,Ann,One,4\n";

const MIX_OF_4: &str =
    "op,kind,id,dmap.itemname,list,item\nput,list,2,Mix,,\nput,member,10,,2,1\nput,member,11,,2,6\nput,member,12,,2,1\nput,member,13,,2,99\n";

const DROP_1: &str = "op,kind,id\ndrop,item,1\n";

const RULE_OF_1: &str =
    "op,kind,id,dmap.itemname,query\nput,rule,3,Songs,'com.apple.itunes.mediakind:1'\n";

const RULE_OF_4: &str =
    "op,kind,id,dmap.itemname,query\nput,rule,3,Talks,'com.apple.itunes.mediakind:4'\n";

/// The third song changes to kind 1, and the first to kind 4.
const TURNED: &str =
    "op,kind,id,dmap.itemname,daap.songartist,daap.songalbum,com.apple.itunes.mediakind\nput,item,3,Talk,Cy,Pod,1\nput,item,1,Hey,Ann,One,4\n";

/// Songs or films, with an album.
const MEDIA_KINDS: &str =
    "('com.apple.itunes.mediakind:1','com.apple.itunes.mediakind:32') 'daap.songalbum!:'";

const NAMES: &str = "dmap.itemname";

/// The listing of item 7 at revision 3.
const ONE_ITEM: &[u8] =
    b"adbs\0\0\0\x5emstt\0\0\0\x04\0\0\0\xc8muty\0\0\0\x01\0musr\0\0\0\x04\0\0\0\x03mtco\0\0\0\x04\0\0\0\x01mrco\0\0\0\x04\0\0\0\x01mlcl\0\0\0\x1dmlit\0\0\0\x15miid\0\0\0\x04\0\0\0\x07minm\0\0\0\x01A";

/// The delta at revision 4 that deletes item 1.
const ONE_GONE: &[u8] =
    b"adbs\0\0\0\x55mstt\0\0\0\x04\0\0\0\xc8muty\0\0\0\x01\x01musr\0\0\0\x04\0\0\0\x04mtco\0\0\0\x04\0\0\0\0mrco\0\0\0\x04\0\0\0\0mlcl\0\0\0\0mudl\0\0\0\x0cmiid\0\0\0\x04\0\0\0\x01";

/// The empty delta at revision 4.
const NONE_GONE: &[u8] =
    b"adbs\0\0\0\x49mstt\0\0\0\x04\0\0\0\xc8muty\0\0\0\x01\x01musr\0\0\0\x04\0\0\0\x04mtco\0\0\0\x04\0\0\0\0mrco\0\0\0\x04\0\0\0\0mlcl\0\0\0\0mudl\0\0\0\0";

/// The fifth of the six songs at revision 3.
const FIFTH_SONG: &[u8] =
    b"adbs\0\0\0\x77mstt\0\0\0\x04\0\0\0\xc8muty\0\0\0\x01\0musr\0\0\0\x04\0\0\0\x03mtco\0\0\0\x04\0\0\0\x06mrco\0\0\0\x04\0\0\0\x01mlcl\0\0\0\x36mlit\0\0\0\x2emiid\0\0\0\x04\0\0\0\x05minm\0\0\0\x05Quietasar\0\0\0\x02Edasal\0\0\0\x03Two";

/// The last two of the three songs and films of an album, at revision 3.
const TWO_SONGS: &[u8] =
    b"adbs\0\0\0\xadmstt\0\0\0\x04\0\0\0\xc8muty\0\0\0\x01\0musr\0\0\0\x04\0\0\0\x03mtco\0\0\0\x04\0\0\0\x03mrco\0\0\0\x04\0\0\0\x02mlcl\0\0\0\x6cmlit\0\0\0\x2emiid\0\0\0\x04\0\0\0\x04minm\0\0\0\x04Moveasar\0\0\0\x02Diasal\0\0\0\x04Filmmlit\0\0\0\x2emiid\0\0\0\x04\0\0\0\x06minm\0\0\0\x04Lateasar\0\0\0\x03annasal\0\0\0\x03two";

/// The members of the list at revision 4.
const MIX: &[u8] =
    b"apso\0\0\0\xc3mstt\0\0\0\x04\0\0\0\xc8muty\0\0\0\x01\0musr\0\0\0\x04\0\0\0\x04mtco\0\0\0\x04\0\0\0\x03mrco\0\0\0\x04\0\0\0\x03mlcl\0\0\0\x82mlit\0\0\0#mcti\0\0\0\x04\0\0\0\x0amiid\0\0\0\x04\0\0\0\x01minm\0\0\0\x03Heymlit\0\0\0$mcti\0\0\0\x04\0\0\0\x0bmiid\0\0\0\x04\0\0\0\x06minm\0\0\0\x04Latemlit\0\0\0#mcti\0\0\0\x04\0\0\0\x0cmiid\0\0\0\x04\0\0\0\x01minm\0\0\0\x03Hey";

/// The delta at revision 5 that deletes the two members of a song that was dropped.
const HEY_GONE: &[u8] =
    b"apso\0\0\0amstt\0\0\0\x04\0\0\0\xc8muty\0\0\0\x01\x01musr\0\0\0\x04\0\0\0\x05mtco\0\0\0\x04\0\0\0\0mrco\0\0\0\x04\0\0\0\0mlcl\0\0\0\0mudl\0\0\0\x18mcti\0\0\0\x04\0\0\0\x0amcti\0\0\0\x04\0\0\0\x0c";

/// The song that matches the second rule, at revision 5.
const TALK: &[u8] =
    b"apso\0\0\0mmstt\0\0\0\x04\0\0\0\xc8muty\0\0\0\x01\0musr\0\0\0\x04\0\0\0\x05mtco\0\0\0\x04\0\0\0\x01mrco\0\0\0\x04\0\0\0\x01mlcl\0\0\0,mlit\0\0\0$mcti\0\0\0\x04\0\0\0\x03miid\0\0\0\x04\0\0\0\x03minm\0\0\0\x04Talk";

/// The delta at revision 5 of the smart playlist that has a song more and one less.
const ONE_FOR_ONE: &[u8] =
    b"apso\0\0\0\x81mstt\0\0\0\x04\0\0\0\xc8muty\0\0\0\x01\x01musr\0\0\0\x04\0\0\0\x05mtco\0\0\0\x04\0\0\0\x01mrco\0\0\0\x04\0\0\0\x01mlcl\0\0\0,mlit\0\0\0$mcti\0\0\0\x04\0\0\0\x03miid\0\0\0\x04\0\0\0\x03minm\0\0\0\x04Talkmudl\0\0\0\x0cmcti\0\0\0\x04\0\0\0\x01";

const ITEMS: Target = Target::Items;

const LIST: Target = Target::Container(2);

const RULE: Target = Target::Container(3);

/// All rows: with the range `0-` too, with a base that is still to come, and by a function that reads no base.
const WHOLE: &[Case] = &[
    (By::Items, ITEMS, "", "", 0, Range::All, ONE_ITEM),
    (By::Items, ITEMS, "", "", 0, Range::From { at: 0 }, ONE_ITEM),
    (By::Items, ITEMS, "", "", 4, Range::All, ONE_ITEM),
    (By::AllItems, ITEMS, "", "", 3, Range::All, ONE_ITEM),
];

const IN_PART: &[Case] = &[
    (
        By::Items,
        ITEMS,
        "",
        "",
        0,
        Range::One { at: 4 },
        FIFTH_SONG,
    ),
    (
        By::Stores,
        ITEMS,
        MEDIA_KINDS,
        "",
        0,
        Range::Span { from: 1, to: 2 },
        TWO_SONGS,
    ),
];

const SINCE: &[Case] = &[
    (By::Items, ITEMS, MEDIA_KINDS, "", 3, Range::All, ONE_GONE),
    (By::Items, ITEMS, MEDIA_KINDS, "", 4, Range::All, NONE_GONE),
];

/// The last has a base before the list was put.
const OF_MIX: &[Case] = &[
    (By::Stores, LIST, "", NAMES, 0, Range::All, MIX),
    (By::AllStores, LIST, "", NAMES, 4, Range::All, MIX),
    (By::Stores, LIST, "", NAMES, 3, Range::All, MIX),
];

const OF_MIX_WITHOUT_HEY: &[Case] = &[(By::Stores, LIST, "", NAMES, 4, Range::All, HEY_GONE)];

/// The smart playlist was put again, so that its base is not kept.
const OF_TALKS: &[Case] = &[(By::Stores, RULE, "", NAMES, 4, Range::All, TALK)];

const OF_TURNED: &[Case] = &[(By::Stores, RULE, "", NAMES, 4, Range::All, ONE_FOR_ONE)];

/// Batches, the last one, and listings after it.
type Listed = (&'static [&'static str], &'static str, &'static [Case]);

const LISTED: [Listed; 7] = [
    (&[], PUT_7, WHOLE),
    (&[], SIX, IN_PART),
    (&[SIX], HEY_IS_4, SINCE),
    (&[SIX], MIX_OF_4, OF_MIX),
    (&[SIX, MIX_OF_4], DROP_1, OF_MIX_WITHOUT_HEY),
    (&[SIX, RULE_OF_1], RULE_OF_4, OF_TALKS),
    (&[SIX, RULE_OF_1], TURNED, OF_TURNED),
];

fn all_answer(rt: &impl Abort, alloc: Global, listed: &[Listed]) -> Result<(), Fail> {
    for (first, last, cases) in listed {
        answer_after(rt, alloc, first, last, cases)?;
    }
    Ok(())
}

#[test]
fn listings_have_their_bytes(rt: HostRuntime) -> Result<(), Fail> {
    all_answer(&rt, rt.alloc(), &LISTED)
}
