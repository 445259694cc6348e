//! What every page has: how it looks, and how its table is sorted.

/// The beginning of a page, up to its title.
pub(crate) const HEAD: &str =
    "<!doctype html>\n<html lang=\"en\">\n<head>\n<meta charset=\"utf-8\">\n\
<meta name=\"viewport\" content=\"width=device-width, initial-scale=1\">\n<title>svamon: ";

/// The style, and the beginning of the body.
pub(crate) const STYLE: &str = "</title>\n<style>\n\
:root { color-scheme: light dark; --ink: #1c2430; --paper: #ffffff; --faint: #8a94a3;\n\
  --line: #d5dae1;\n\
  --good: #1a7f37; --bad: #c62828; --band: #fbe4e1; --wave: #1f5fae; --box: #eef3fa; }\n\
@media (prefers-color-scheme: dark) { :root { --ink: #e3e7ed; --paper: #14181e; --faint: #8791a0;\n\
  --line: #333b46; --good: #57b870; --bad: #ff7a70; --band: #3d2323; --wave: #79b0f2;\n\
  --box: #1f2833; } }\n\
body { margin: 0 auto; max-width: 76rem; padding: 1rem; color: var(--ink);\n\
  background: var(--paper);\n\
  font: 16px/1.45 system-ui, sans-serif; }\n\
h1 { font-size: 1.4rem; margin: 0 0 .3rem; } h2 { font-size: 1.1rem; margin: 2rem 0 .2rem; }\n\
h1, h2, p { overflow-wrap: anywhere; } p { margin: .2rem 0; }\n\
.scroll { overflow-x: auto; }\n\
table { border-collapse: collapse; margin-top: 1rem; min-width: 100%; }\n\
th, td { padding: .25rem .7rem; text-align: right; border-bottom: 1px solid var(--line); }\n\
th:first-child, td:first-child { text-align: left; overflow-wrap: anywhere; min-width: 9rem; }\n\
td:last-child { white-space: nowrap; }\n\
th { padding: 0; } th button { all: unset; cursor: pointer; padding: .25rem .7rem; }\n\
th button:focus-visible { outline: 2px solid var(--wave); }\n\
th[aria-sort=ascending] button::after { content: ' \\2191'; }\n\
th[aria-sort=descending] button::after { content: ' \\2193'; }\n\
.fails .bad, .told { color: var(--bad); } .holds .good { color: var(--good); }\n\
.untried { color: var(--faint); }\n\
a { color: inherit; }\n\
svg { display: block; font: 13px ui-monospace, monospace; margin-top: .5rem; }\n\
svg text { fill: var(--ink); } svg .faint { fill: var(--faint); } svg .at { fill: var(--band); }\n\
svg .grid { stroke: var(--line); } \n\
svg .wave { fill: none; stroke: var(--wave); stroke-width: 1.5; }\n\
svg .box { fill: var(--box); stroke: var(--wave); } \n\
svg .end { stroke: var(--bad); stroke-dasharray: 4 3; }\n\
</style>\n</head>\n<body>\n";

/// The beginning of the table.
pub(crate) const TABLE: &str = "<div class=\"scroll\">\n<table>\n<thead><tr>\
<th><button>assertion</button></th><th><button>holds</button></th><th><button>vacuous</button></th>\
<th><button>fails</button></th><th><button>disabled</button></th><th><button>open</button></th>\
<th><button>first failure</button></th></tr></thead>\n<tbody>\n";

/// The end of the table.
pub(crate) const TABLE_END: &str = "</tbody>\n</table>\n</div>\n";

/// The end of a page, with what sorts its table.
pub(crate) const END: &str = "<script>\n\
document.querySelectorAll('th button').forEach((button, place) =>\n\
    button.addEventListener('click', () => {\n\
  const head = button.parentNode, body = document.querySelector('tbody');\n\
  const up = head.getAttribute('aria-sort') !== 'ascending';\n\
  document.querySelectorAll('th').forEach(it => it.removeAttribute('aria-sort'));\n\
  head.setAttribute('aria-sort', up ? 'ascending' : 'descending');\n\
  const key = row => row.cells[place].dataset.key ?? row.cells[place].textContent;\n\
  const order = (a, b) => key(a).localeCompare(key(b), 'en', { numeric: true });\n\
  [...body.rows].sort((a, b) => up ? order(a, b) : order(b, a)).forEach(row => body.append(row));\n\
}));\n\
</script>\n</body>\n</html>\n";
