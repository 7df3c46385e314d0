use crate::tables::{Asking, Question, assert_table, lines};
use site_config::{Config, ConfigFault};
use slp_text::NoMemory;
use std::alloc::Global;

#[derive(Clone, Copy)]
struct Configurations;

// What a line stands for, if not for itself.
static LINES: [(&str, &str); 3] = [
    ("scopes", "scopes = 'DEFAULT'"),
    ("listen", "listen = ['1.2.3.4:427']"),
    ("capacity", "capacity = 16"),
];

fn print_config(config: &Config, out: &mut String) -> Result<(), NoMemory> {
    config.scopes.print_into(out)?;
    for (address, port) in config.listen.as_slice() {
        write!(out, " {address}:{port}")?;
    }
    let rules = match &config.rules {
        Some(path) => path.as_str(),
        None => "none",
    };
    let (capacity, connections, sweep) = (config.capacity, config.connections, config.sweep);
    write!(out, " {capacity} {connections} {sweep} {rules};")?;
    for path in config.templates.as_slice() {
        write!(out, " {}", path.as_str())?;
    }
    Ok(())
}

impl Asking for Configurations {
    type Fault = ConfigFault;

    fn print(self, alloc: Global, row: Question<'_>, out: &mut String) -> Result<(), ConfigFault> {
        let text = lines(alloc, row.text, &LINES)?;
        let config = Config::from_text(alloc, text.as_str())?;
        let told = print_config(&config, out);
        drop(config);
        Ok(told?)
    }
}

// What texts say as configurations. The longest has 1,048,576 bytes.
const TABLE: &str = "
config¦scopes¶listen¶capacity¦¦default 1.2.3.4:427 16 64 60 none;
config¦scopes = 'b, A'¶listen = ['1.2.3.4:5', '1.2.3.4:6']¶capacity = 65536¶connections = 1¶sweep = 3600¶rules = '/etc/rules'¶templates = ['a', '']¦¦a,b 1.2.3.4:5 1.2.3.4:6 65536 1 3600 /etc/rules; a 
config¦scopes¶listen¶capacity¶connections = 1¦¦default 1.2.3.4:427 16 1 60 none;
config¦scopes¶listen¶capacity¶connections = 256¦¦default 1.2.3.4:427 16 256 60 none;
config¦scopes¶listen¶capacity¶sweep = 1¦¦default 1.2.3.4:427 16 64 1 none;
config¦scopes¶listen¶capacity¶sweep = 3600¦¦default 1.2.3.4:427 16 64 3600 none;
config¦scopes¶listen¶capacity¶rules = ''¦¦default 1.2.3.4:427 16 64 60 ;
config¦scopes¶listen¶capacity¶templates = []¦¦default 1.2.3.4:427 16 64 60 none;
config¦scopes¶listen¶capacity = 1¦¦default 1.2.3.4:427 1 64 60 none;
config¦scopes¶listen¶capacity = 65536¦¦default 1.2.3.4:427 65536 64 60 none;
config¦scopes¶listen = ['0.0.0.0:1', '0.0.0.0:2', '0.0.0.0:3', '0.0.0.0:4', '0.0.0.0:5', '0.0.0.0:6', '0.0.0.0:7', '0.0.0.0:8']¶capacity¦¦default 0.0.0.0:1 0.0.0.0:2 0.0.0.0:3 0.0.0.0:4 0.0.0.0:5 0.0.0.0:6 0.0.0.0:7 0.0.0.0:8 16 64 60 none;
config¦scopes = 'a,b,c,d,e,f,g,h,i,j,k,l,m,n,o,p'¶listen¶capacity¦¦a,b,c,d,e,f,g,h,i,j,k,l,m,n,o,p 1.2.3.4:427 16 64 60 none;
config¦scopes = '<<1024 a>>'¶listen¶capacity¦¦<<1024 a>> 1.2.3.4:427 16 64 60 none;
config¦scopes¶listen¶capacity¶templates = [<<256 'a',>>]¦¦default 1.2.3.4:427 16 64 60 none;<<256  a>>
config¦scopes¶listen¶capacity¶<<1048518 ¶>>¦¦default 1.2.3.4:427 16 64 60 none;
config¦scopes¶listen¶capacity¶connections = 0¦¦! Range
config¦scopes¶listen¶capacity¶connections = 257¦¦! Range
config¦scopes¶listen¶capacity¶connections = -1¦¦! Range
config¦scopes¶listen¶capacity¶connections = 1.0¦¦! Range
config¦scopes¶listen¶capacity¶sweep = 0¦¦! Range
config¦scopes¶listen¶capacity¶sweep = 3601¦¦! Range
config¦scopes¶listen¶capacity¶sweep = '60'¦¦! Range
config¦scopes¶listen¶capacity¶rules = 1¦¦! Range
config¦scopes¶listen¶capacity¶templates = 'a'¦¦! Range
config¦scopes¶listen¶capacity¶templates = ['a', 1]¦¦! Range
config¦scopes¶listen¶capacity¶other = 1¦¦! Range
config¦scopes¶listen¶capacity¶[other]¦¦! Range
config¦scopes¶listen¶capacity = 0¦¦! Range
config¦scopes¶listen¶capacity = 65537¦¦! Range
config¦scopes¶listen¶capacity = 16.0¦¦! Range
config¦scopes¶listen¶capacity = '16'¦¦! Range
config¦scopes¶listen = []¶capacity¦¦! Range
config¦scopes¶listen = '1.2.3.4:5'¶capacity¦¦! Range
config¦scopes¶listen = [5]¶capacity¦¦! Range
config¦scopes¶listen = ['1.2.3.4']¶capacity¦¦! Range
config¦scopes¶listen = ['1.2.3.4:0']¶capacity¦¦! Range
config¦scopes¶listen = ['1.2.3.4:5', '1.2.3.4:05']¶capacity¦¦! Range
config¦scopes¶listen = ['0.0.0.0:1', '0.0.0.0:2', '0.0.0.0:3', '0.0.0.0:4', '0.0.0.0:5', '0.0.0.0:6', '0.0.0.0:7', '0.0.0.0:8', '0.0.0.0:9']¶capacity¦¦! Range
config¦scopes = 'a,b,c,d,e,f,g,h,i,j,k,l,m,n,o,p,q'¶listen¶capacity¦¦! Range
config¦scopes = ','¶listen¶capacity¦¦! Range
config¦scopes = ''¶listen¶capacity¦¦! Range
config¦scopes = '('¶listen¶capacity¦¦! Range
config¦scopes = 1¶listen¶capacity¦¦! Range
config¦scopes = '<<1025 a>>'¶listen¶capacity¦¦! Range
config¦scopes = 1¶capacity¦¦! Range
config¦scopes¶listen¶capacity¶templates = [<<257 'a',>>]¦¦! Range
config¦scopes¶listen¶capacity¶<<1048519 ¶>>¦¦! Range
config¦listen¶capacity¦¦! Missing
config¦scopes¶capacity¦¦! Missing
config¦scopes¶listen¦¦! Missing
config¦scopes¶capacity = 0¶other = 1¦¦! Missing
config¦sweep¦¦! Toml
config¦scopes =¦¦! Toml
config¦a = 1¶a = 2¦¦! Toml
";

#[test]
fn configurations_are_read(rt: HostRuntime) {
    assert_table(&rt, rt.alloc(), Configurations, TABLE);
}
