//! The codes that DAAP servers publish, with the kinds and names that this project assigns.

ghost use Rattle.std.specs.Prelude.{◌≡◌, map, true, IfOk};
ghost use Rattle.code_table.specs.Rows.{row_of, codes_differ};

use crate::row::CodeRow;
use crate::table::CodeTable;
use dmap_tags::{Code, Kind, Text};
use std::alloc::{AllocError, Global};

/// A row as constant data: code, kind, name.
#[derive(Clone, Copy)]
pub struct StandardRow([u8; 4], Kind, &'static str);

/// The rows of `CodeTable::standard`, in order.
pub static STANDARD: [StandardRow; 73] = [
    StandardRow(*b"mstt", Kind::U32, "dmap.status"),
    StandardRow(*b"miid", Kind::U32, "dmap.itemid"),
    StandardRow(*b"mcti", Kind::U32, "dmap.containeritemid"),
    StandardRow(*b"mpco", Kind::U32, "dmap.parentcontainerid"),
    StandardRow(*b"mimc", Kind::U32, "dmap.itemcount"),
    StandardRow(*b"mctc", Kind::U32, "dmap.containercount"),
    StandardRow(*b"mrco", Kind::U32, "dmap.returnedcount"),
    StandardRow(*b"mtco", Kind::U32, "dmap.specifiedtotalcount"),
    StandardRow(*b"mstm", Kind::U32, "dmap.timeoutinterval"),
    StandardRow(*b"msdc", Kind::U32, "dmap.databasescount"),
    StandardRow(*b"mlid", Kind::U32, "dmap.sessionid"),
    StandardRow(*b"musr", Kind::U32, "dmap.serverrevision"),
    StandardRow(*b"mcnm", Kind::U32, "dmap.contentcodesnumber"),
    StandardRow(*b"minm", Kind::Text, "dmap.itemname"),
    StandardRow(*b"msts", Kind::Text, "dmap.statusstring"),
    StandardRow(*b"mcna", Kind::Text, "dmap.contentcodesname"),
    StandardRow(*b"mikd", Kind::U8, "dmap.itemkind"),
    StandardRow(*b"msau", Kind::U8, "dmap.authenticationmethod"),
    StandardRow(*b"mslr", Kind::U8, "dmap.loginrequired"),
    StandardRow(*b"msup", Kind::U8, "dmap.supportsupdate"),
    StandardRow(*b"mspi", Kind::U8, "dmap.supportspersistentids"),
    StandardRow(*b"msbr", Kind::U8, "dmap.supportsbrowse"),
    StandardRow(*b"msqy", Kind::U8, "dmap.supportsquery"),
    StandardRow(*b"msix", Kind::U8, "dmap.supportsindex"),
    StandardRow(*b"muty", Kind::U8, "dmap.updatetype"),
    StandardRow(*b"mper", Kind::U64, "dmap.persistentid"),
    StandardRow(*b"mcty", Kind::U16, "dmap.contentcodestype"),
    StandardRow(*b"mpro", Kind::Version, "dmap.protocolversion"),
    StandardRow(*b"apro", Kind::Version, "daap.protocolversion"),
    StandardRow(*b"mdcl", Kind::List, "dmap.dictionary"),
    StandardRow(*b"mcon", Kind::List, "dmap.container"),
    StandardRow(*b"mlcl", Kind::List, "dmap.listing"),
    StandardRow(*b"mlit", Kind::List, "dmap.listingitem"),
    StandardRow(*b"mbcl", Kind::List, "dmap.bag"),
    StandardRow(*b"msrv", Kind::List, "dmap.serverinforesponse"),
    StandardRow(*b"mlog", Kind::List, "dmap.loginresponse"),
    StandardRow(*b"mupd", Kind::List, "dmap.updateresponse"),
    StandardRow(*b"mudl", Kind::List, "dmap.deletedidlisting"),
    StandardRow(*b"mccr", Kind::List, "dmap.contentcodesresponse"),
    StandardRow(*b"avdb", Kind::List, "daap.serverdatabases"),
    StandardRow(*b"adbs", Kind::List, "daap.databasesongs"),
    StandardRow(*b"aply", Kind::List, "daap.databaseplaylists"),
    StandardRow(*b"apso", Kind::List, "daap.playlistsongs"),
    StandardRow(*b"abro", Kind::List, "daap.databasebrowse"),
    StandardRow(*b"abar", Kind::List, "daap.browseartistlisting"),
    StandardRow(*b"abal", Kind::List, "daap.browsealbumlisting"),
    StandardRow(*b"abgn", Kind::List, "daap.browsegenrelisting"),
    StandardRow(*b"abcp", Kind::List, "daap.browsecomposerlisting"),
    StandardRow(*b"asar", Kind::Text, "daap.songartist"),
    StandardRow(*b"asal", Kind::Text, "daap.songalbum"),
    StandardRow(*b"asaa", Kind::Text, "daap.songalbumartist"),
    StandardRow(*b"asgn", Kind::Text, "daap.songgenre"),
    StandardRow(*b"ascp", Kind::Text, "daap.songcomposer"),
    StandardRow(*b"ascm", Kind::Text, "daap.songcomment"),
    StandardRow(*b"agrp", Kind::Text, "daap.songgrouping"),
    StandardRow(*b"asfm", Kind::Text, "daap.songformat"),
    StandardRow(*b"asyr", Kind::U16, "daap.songyear"),
    StandardRow(*b"astn", Kind::U16, "daap.songtracknumber"),
    StandardRow(*b"astc", Kind::U16, "daap.songtrackcount"),
    StandardRow(*b"asdn", Kind::U16, "daap.songdiscnumber"),
    StandardRow(*b"asdc", Kind::U16, "daap.songdisccount"),
    StandardRow(*b"asbr", Kind::U16, "daap.songbitrate"),
    StandardRow(*b"asbt", Kind::U16, "daap.songbeatsperminute"),
    StandardRow(*b"astm", Kind::U32, "daap.songtime"),
    StandardRow(*b"assr", Kind::U32, "daap.songsamplerate"),
    StandardRow(*b"assz", Kind::U32, "daap.songsize"),
    StandardRow(*b"asur", Kind::U8, "daap.songuserrating"),
    StandardRow(*b"asco", Kind::U8, "daap.songcompilation"),
    StandardRow(*b"abpl", Kind::U8, "daap.baseplaylist"),
    StandardRow(*b"aeSP", Kind::U8, "com.apple.itunes.smart-playlist"),
    StandardRow(*b"aeMK", Kind::U8, "com.apple.itunes.mediakind"),
    StandardRow(*b"asda", Kind::Date, "daap.songdateadded"),
    StandardRow(*b"asdm", Kind::Date, "daap.songdatemodified"),
];

/// Returns the table of these rows.
pub fn table_of(alloc: Global, rows: &[StandardRow]) -> Result<CodeTable, AllocError>
    requires { codes_differ (map row_of rows.now) ≡ true }
    ensures { IfOk result (λ table. table ≡ map row_of rows.now) }
{
    let mut table = CodeTable::new(alloc);
    for row in rows {
        table.push(CodeRow {
            code: Code([row.0[0], row.0[1], row.0[2], row.0[3]]),
            name: Text::of(alloc, row.2)?,
            kind: row.1,
        })?;
    }
    Ok(table)
}
