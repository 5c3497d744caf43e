//! What each page for people has around it: its head with the style, the links, and its end.
use hypertext::Hypertext;
use lists::Text;
use std::alloc::AllocError;

const HEAD: &str =
    "<!DOCTYPE html>\n<html lang=\"en\">\n<head><meta charset=\"utf-8\"><meta name=\"viewport\" content=\"width=device-width,initial-scale=1\">";

const STYLE: &str = "<style>
:root{color-scheme:light dark;--line:#ccc;--bad:#b00020}
@media (prefers-color-scheme:dark){:root{--line:#555;--bad:#ff8a80}}
body{font:15px/1.35 system-ui,sans-serif;margin:1.5rem;max-width:84rem;overflow-wrap:anywhere}
nav a{display:inline-block;margin-right:1rem}
table{border-collapse:collapse;font-variant-numeric:tabular-nums;margin-top:1rem}
caption{text-align:left;font-weight:600;font-size:1.2rem;padding:.3rem 0}
th,td{padding:.12rem .6rem;text-align:right;border-bottom:1px solid var(--line);vertical-align:top}
th:first-child{text-align:left}
td,thead th{white-space:nowrap}
td.long{white-space:normal;text-align:left;min-width:9rem}
#targets td.bad{white-space:normal;min-width:12rem}
.bad,.bad a{color:var(--bad);font-weight:600}
meter{width:6rem;vertical-align:middle}
summary{cursor:pointer;white-space:nowrap}
@media (max-width:68rem){thead{display:none}table,caption,tbody,tr,th,td{display:block}tr{border-bottom:1px solid var(--line);padding:.3rem 0}th,td{border:0;padding:0 .8rem 0 0;text-align:left}td{display:inline-block;white-space:normal}td:empty{display:none}td::before{content:attr(data-h) \" \";opacity:.7;font-weight:400}}
pre{white-space:pre-wrap}
form{margin-top:.6rem}
input,button{font:inherit;max-width:100%}
</style></head>
<body>
";

const LINKS: &str =
    "<nav><a href=\"/\">overview</a><a href=\"/jobs\">jobs</a><a href=\"/collectors\">collectors</a><a href=\"/scrape_configs\">scrape configs</a><a href=\"/scrape_configs?rules=true\">as read</a><a href=\"/allocations\">allocations</a><a href=\"/books\">books</a><a href=\"/certificate\">certificate</a><a href=\"/metrics\">metrics</a><a href=\"/-/ready\">ready</a><a href=\"/livez\">live</a><a href=\"/-/healthy\">healthy</a></nav>\n";

/// Begins a page, as far as its title, which begins with the program's name.
pub(crate) fn begin_title(page: &mut Hypertext) -> Result<(), AllocError> {
    page.markup(HEAD)?;
    page.markup("<title>allocd")
}

/// Ends the title, and the head with it.
pub(crate) fn end_title(page: &mut Hypertext) -> Result<(), AllocError> {
    page.markup("</title>\n")?;
    page.markup(STYLE)
}

/// The links to all that is shown.
pub(crate) fn write_links(page: &mut Hypertext) -> Result<(), AllocError> {
    page.markup(LINKS)
}

pub(crate) fn end_page(page: &mut Hypertext) -> Result<(), AllocError> {
    page.markup("</body>\n</html>\n")
}

/// The text of a page.
pub(crate) fn finished(page: Hypertext) -> Result<Text, AllocError> {
    match page.into_string() {
        Some(text) => Ok(Text::from_string(text)),
        None => Err(AllocError),
    }
}
