// Cases for chains: 1, then 2 from 1, 3 from 2 and so on. An atom past the last rule has none.
use crate::survey_tables::{Tables, print_settled};
use levels::order::StoredLevel;
use levels::table::Entry;
use orders::numbers::Number;
use orders::routes::Route;
use program_file::file::ProgramFile;
use samples::bytes::FileBytes;
use samples::lines::print_answer;
use std::alloc::{AllocError, Global};
use std::io;

// How many atoms and rules a chain has, and the mark byte and the entry that each atom has before settle.
#[derive(Clone, Copy)]
pub struct Chain<L> {
    pub name: &'static str,
    pub atoms: u16,
    pub rules: u16,
    pub mark: u8,
    pub entry: Entry<L>,
}

const BY_ROUTES: &[Chain<Route>] = &[
    Chain {
        name: "65 atoms by routes",
        atoms: 65,
        rules: 65,
        mark: 1,
        entry: None,
    },
    Chain {
        name: "66 atoms by routes",
        atoms: 66,
        rules: 66,
        mark: 1,
        entry: None,
    },
];

const BY_NUMBERS: Chain<Number> = Chain {
    name: "4096 atoms by numbers",
    atoms: 4096,
    rules: 4096,
    mark: 1,
    entry: None,
};

pub fn print_all(rt: &HostRuntime) -> io::Result<()> {
    println!(rt; "# chains")?;
    for chain in BY_ROUTES {
        print_chain(rt, chain)?;
    }
    print_chain(rt, &BY_NUMBERS)
}

// Settles the chain.
pub fn print_chain<L: StoredLevel + Into<u64>>(
    rt: &HostRuntime,
    chain: &Chain<L>,
) -> io::Result<()> {
    let heap = rt.alloc();
    let many = usize::from(chain.atoms);
    let tables = Tables {
        marks: vec![in heap; chain.mark; many]?,
        entries: vec![in heap; chain.entry; many]?,
        rounds: vec![in heap; 9u16; many]?,
    };
    let bytes = chain_file(heap, chain.atoms, chain.rules)?;
    match ProgramFile::read(bytes.as_slice()) {
        Ok(file) => print_settled(rt, chain.name, &file, tables),
        Err(refusal) => print_answer(rt, chain.name, Err(refusal)),
    }
}

// The file of a chain with as many rules, over as many atoms.
fn chain_file(heap: Global, atoms: u16, rules: u16) -> Result<FileBytes, AllocError> {
    let mut file = FileBytes::new(heap);
    file.words(&[4, 1, atoms, rules])?;
    file.facts(1, 1)?;
    for atom in 1..rules {
        file.words(&[6, 2, atom + 1, 1, atom])?;
    }
    file.words(&[0, 3])?;
    Ok(file)
}
