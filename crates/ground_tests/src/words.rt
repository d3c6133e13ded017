use command_line::{Command, InputForm, paths_for};
use mo_cmd::{CommandLine, Rows, UsageFault, read_list, read_words};
use mo_types::{Arg, ArgList, Bytes, Feature, Items, NameList, ObjFault, OutOfMemory, UsageRule};
use std::alloc::Global;
use std::test::Fail;

// Each row ends in the words of a command line, with a space between any two.

// By the rows of options that a link has today.
const LINKED: &str = "\
    0 noinput\t\n\
    2 novalue\ta.o -o\n\
    1 badvalue\t-threads 65 a.o\n\
    1 badvalue\t-threads 0 a.o\n\
    1 unknown\t-frob a.o\n\
    0 noinput\t-o a\n\
    to a.out _main a.out path:a.o path:b.o\ta.o b.o\n\
    to a _main a L:d library:x path:a.o path+forced:p.a\t-o a -Ld -lx a.o -force_load p.a\n\
    1 unknown\t-dylib a.o\n\
    1 unknown\t-reexport-lx a.o\n\
    1 unknown\t-exported_symbol n a.o\n\
    3 unknown\t-o a -dead_strip a.o\n\
    2 unknown\ta.o -branch_reach 4096\n\
    2 unknown\ta.o -generate 1\n\
    2 unknown\ta.o -no_fixup_chains\n\
    2 unknown\ta.o -icf all\n\
    3 unknown\ta.o -o b\0c\n\
    1 unknown\t a.o\n\
";

// The number and the rule of the word at fault, and the words.
const FAULTS: &str = "\
    0 noinput\t\n\
    0 noinput\t-dylib\n\
    1 badvalue\t-generate 0 a.o\n\
    1 badvalue\t-generate 20001 a.o\n\
    2 novalue\ta.o -generate\n\
    0 noinput\t-threads 64\n\
    2 unknown\ta.o \n\
    2 unknown\ta.o -\n\
    2 unknown\ta.o -L\n\
    2 unknown\ta.o -l\n\
    2 unknown\ta.o -F\n\
    2 unknown\ta.o -weak-l\n\
    2 unknown\ta.o -reexport-l\n\
    2 unknown\ta.o -L\0\n\
    2 unknown\ta.o -lx\0\n\
    1 unknown\ta\0.o\n\
    2 unknown\ta.o -frob\n\
    2 unknown\ta.o -o\0 b\n\
    2 novalue\ta.o -o\n\
    2 novalue\ta.o -arch\n\
    2 novalue\ta.o -platform_version\n\
    2 novalue\ta.o -platform_version macos\n\
    2 novalue\ta.o -platform_version macos 11\n\
    2 novalue\ta.o -e\n\
    2 novalue\ta.o -u\n\
    2 novalue\ta.o -U\n\
    2 novalue\ta.o -undefined\n\
    2 novalue\ta.o -syslibroot\n\
    2 novalue\ta.o -framework\n\
    2 novalue\ta.o -weak_framework\n\
    2 novalue\ta.o -reexport_framework\n\
    2 novalue\ta.o -weak_library\n\
    2 novalue\ta.o -reexport_library\n\
    2 novalue\ta.o -force_load\n\
    2 novalue\ta.o -install_name\n\
    2 novalue\ta.o -dylib_install_name\n\
    2 novalue\ta.o -current_version\n\
    2 novalue\ta.o -dylib_current_version\n\
    2 novalue\ta.o -compatibility_version\n\
    2 novalue\ta.o -dylib_compatibility_version\n\
    2 novalue\ta.o -rpath\n\
    2 novalue\ta.o -exported_symbols_list\n\
    2 novalue\ta.o -exported_symbol\n\
    2 novalue\ta.o -unexported_symbols_list\n\
    2 novalue\ta.o -unexported_symbol\n\
    2 novalue\ta.o -map\n\
    2 novalue\ta.o -headerpad\n\
    2 novalue\ta.o -threads\n\
    2 novalue\ta.o -branch_reach\n\
    2 novalue\ta.o -icf\n\
    2 novalue\ta.o -lto_library\n\
    2 novalue\ta.o -mllvm\n\
    2 badvalue\ta.o -arch x86_64\n\
    2 badvalue\ta.o -arch arm64e\n\
    2 badvalue\ta.o -platform_version ios 11 11\n\
    2 badvalue\ta.o -platform_version 2 11 11\n\
    2 badvalue\ta.o -platform_version macos 11. 11\n\
    2 badvalue\ta.o -platform_version macos 11 11.0.0.0\n\
    2 badvalue\ta.o -platform_version macos 65536 11\n\
    2 badvalue\ta.o -platform_version macos 11 11.256\n\
    2 badvalue\ta.o -platform_version macos 11 11.0.256\n\
    2 badvalue\ta.o -undefined suppress\n\
    2 badvalue\ta.o -current_version x\n\
    2 badvalue\ta.o -current_version \n\
    2 badvalue\ta.o -current_version 1..2\n\
    2 badvalue\ta.o -dylib_current_version 1.256\n\
    2 badvalue\ta.o -compatibility_version +1\n\
    2 badvalue\ta.o -dylib_compatibility_version .1\n\
    2 badvalue\ta.o -exported_symbol _a*\n\
    2 badvalue\ta.o -exported_symbol ?\n\
    2 badvalue\ta.o -unexported_symbol a[b\n\
    2 badvalue\ta.o -headerpad 100001\n\
    2 badvalue\ta.o -headerpad 0x\n\
    2 badvalue\ta.o -headerpad \n\
    2 badvalue\ta.o -headerpad 0X20\n\
    2 badvalue\ta.o -headerpad g\n\
    2 badvalue\ta.o -threads 0\n\
    2 badvalue\ta.o -threads 65\n\
    2 badvalue\ta.o -threads \n\
    2 badvalue\ta.o -threads 4x\n\
    2 badvalue\ta.o -threads 99999999999999999999\n\
    2 badvalue\ta.o -branch_reach 4092\n\
    2 badvalue\ta.o -branch_reach 4098\n\
    2 badvalue\ta.o -branch_reach 134217732\n\
    2 badvalue\ta.o -generate 0\n\
    2 badvalue\ta.o -generate 20001\n\
    2 badvalue\ta.o -icf safe\n\
    2 badvalue\ta.o -icf \n\
    3 badvalue\ta.o -no_fixup_chains -headerpad f\n\
    4 badvalue\t-headerpad f -no_fixup_chains -headerpad 0 a.o\n\
    2 badvalue\t-no_fixup_chains -headerpad 100001 a.o -frob\n\
    1 dylibonly\t-reexport-lx a.o\n\
    1 dylibonly\t-reexport_framework x a.o\n\
    1 dylibonly\t-reexport_library x a.o\n\
    2 dylibonly\t-dylib -reexport-lx -execute a.o\n\
    2 unknown\t-reexport-lx -frob -dylib\n\
    1 dylibonly\t-reexport-lx -frob\n\
    2 novalue\ta.o -reexport_library\n\
    2 badvalue\t-reexport-lx -threads 65 -dylib a.o\n\
    2 unknown\t-o a\0 a.o\n\
    1 badvalue\t-platform_version macos 11 11\0 a.o\n\
    1 badvalue\t-threads \0 a.o\n\
    1 badvalue\t-threads 65 -frob\n\
    1 unknown\t-frob -threads 65\n\
    1 novalue\t-lto_library\n\
    4 unknown\t-o -frob b.o -frob\n\
";

// The texts, switches, lists and inputs that are there, and the words.
const COMMANDS: &str = "\
    to a.out _main a.out path:a.o\ta.o\n\
    to a.out _main a.out path:b.o path:a.o path:b.o\tb.o a.o b.o\n\
    to a.out _main a.out path:a.o\t-execute a.o\n\
    to a.out _main a.out dylib path:a.o\t-dylib a.o\n\
    to a.out _main a.out path:a.o\t-dylib -execute a.o\n\
    to q _main q path:a.o\t-o p -o q a.o\n\
    to  _main  path:a.o\t-o  a.o\n\
    to a.out _main a.out path:a.o\t-arch arm64 a.o\n\
    to a.out m a.out path:a.o\t-e n -e m a.o\n\
    to a.out _main a.out u:n u:m path:a.o\t-u n -u m a.o\n\
    to a.out _main a.out U:n U:n path:a.o\t-U n a.o -U n\n\
    to a.out _main a.out path:a.o\t-undefined error a.o\n\
    to a.out _main a.out dynamic path:a.o\t-undefined dynamic_lookup a.o\n\
    to a.out _main a.out path:a.o\t-undefined dynamic_lookup -undefined error a.o\n\
    to a.out _main a.out L:d L:/e path:a.o\t-Ld -L/e a.o\n\
    to a.out _main a.out F:/f path:a.o\t-F/f a.o\n\
    to a.out _main a.out root:/S path:a.o\t-syslibroot /S a.o\n\
    to a.out _main a.out library:x path:a.o library:y\t-lx a.o -ly\n\
    to a.out _main a.out library+weak:x path:a.o\t-weak-lx a.o\n\
    to a.out _main a.out dylib library+reexport:x\t-dylib -reexport-lx\n\
    to a.out _main a.out framework:x\t-framework x\n\
    to a.out _main a.out framework+weak:x\t-weak_framework x\n\
    to a.out _main a.out dylib framework+reexport:x\t-dylib -reexport_framework x\n\
    to a.out _main a.out path+weak:p\t-weak_library p\n\
    to a.out _main a.out dylib path+reexport:p\t-dylib -reexport_library p\n\
    to a.out _main a.out path+forced:p.a\t-force_load p.a\n\
    to a.out _main a.out all_load path:a.o\t-all_load a.o\n\
    to a.out _main a.out dead_strip path:a.o\t-dead_strip a.o\n\
    to a.out _main i dylib path:a.o\t-dylib -install_name i a.o\n\
    to p _main j dylib path:a.o\t-dylib -install_name i -dylib_install_name j -o p a.o\n\
    to a.out _main a.out rpath:r rpath:s path:a.o\t-rpath r -rpath s a.o\n\
    to a.out _main a.out export_given list:f export:n export:m path:a.o\t-exported_symbols_list f -exported_symbol n -exported_symbol m a.o\n\
    to a.out _main a.out unlist:f unexport:n path:a.o\t-unexported_symbols_list f -unexported_symbol n a.o\n\
    to a.out _main a.out export_given export: path:a.o\t-exported_symbol  a.o\n\
    to a.out _main a.out map:p path:a.o\t-map p a.o\n\
    to a.out _main a.out fold path:a.o\t-icf all a.o\n\
    to a.out _main a.out path:a.o\t-icf all -icf none a.o\n\
    to a.out _main a.out opcodes path:a.o\t-no_fixup_chains a.o\n\
    to a.out _main a.out path:a.o\t-no_fixup_chains -headerpad f -fixup_chains a.o\n\
    to a.out _main a.out opcodes path:a.o\t-fixup_chains -no_fixup_chains -headerpad 10 a.o\n\
    to a.out _main a.out path:a.o\t-demangle -dynamic -no_deduplicate -adhoc_codesign -pie -search_paths_first -headerpad_max_install_names a.o\n\
    to a.out _main a.out path:a.o\t-lto_library p -mllvm -frob a.o\n\
    to a.out _main a.out L:-x library:azy library:to path:a.o\t-lazy -lto -L-x a.o\n\
    to -o _main -o path:a.o\t-o -o a.o\n\
";

const NUMBERS: &str = "\
    720896 720896 0 0 32 4 134217728 0\ta.o\n\
    917504 918016 0 0 32 4 134217728 0\t-platform_version macos 14.0.0 14.2 a.o\n\
    4294967295 0 0 0 32 4 134217728 0\t-platform_version 1 65535.255.255 0 a.o\n\
    720896 720896 66051 262144 32 4 134217728 0\t-current_version 1.2.3 -compatibility_version 4 a.o\n\
    720896 720896 88171522 460800 32 4 134217728 0\t-dylib_current_version 1345.100.2 -dylib_compatibility_version 007.008 a.o\n\
    720896 720896 131072 0 32 4 134217728 0\t-current_version 1 -dylib_current_version 2 a.o\n\
    720896 720896 0 0 0 4 134217728 0\t-headerpad 0 a.o\n\
    720896 720896 0 0 1048576 4 134217728 0\t-headerpad 0x100000 a.o\n\
    720896 720896 0 0 256 4 134217728 0\t-headerpad aBc -headerpad 000000000100 a.o\n\
    720896 720896 0 0 32 1 134217728 0\t-threads 1 a.o\n\
    720896 720896 0 0 32 64 134217728 0\t-threads 064 a.o\n\
    720896 720896 0 0 32 4 4096 0\t-branch_reach 4096 a.o\n\
    720896 720896 0 0 32 4 134217728 0\t-branch_reach 134217728 a.o\n\
    720896 720896 0 0 32 4 134217728 1\t-generate 1\n\
    720896 720896 0 0 32 4 134217728 20000\t-generate 20000 a.o\n\
";

const PATHS: &str = "\
    hello.o /SDK/usr/lib/libSystem.tbd,/SDK/usr/lib/libSystem.dylib,/SDK/usr/lib/libSystem.a,/SDK/usr/local/lib/libSystem.tbd,/SDK/usr/local/lib/libSystem.dylib,/SDK/usr/local/lib/libSystem.a /rt/libclang_rt.osx.a\t-demangle -lto_library /x/libLTO.dylib -no_deduplicate -dynamic -arch arm64 -platform_version macos 14.0.0 14.2 -syslibroot /SDK -mllvm -enable-linkonceodr-outlining -o hello hello.o -lSystem /rt/libclang_rt.osx.a\n\
    x.o /usr/lib/libSystem.tbd,/usr/lib/libSystem.dylib,/usr/lib/libSystem.a,/usr/local/lib/libSystem.tbd,/usr/local/lib/libSystem.dylib,/usr/local/lib/libSystem.a\t-demangle -lto_library /usr/lib/llvm-14/lib/libLTO.dylib -dynamic -arch arm64 -platform_version macos 11.0.0 11.0.0 -o x x.o -lSystem\n\
    /usr/lib/libq.tbd,/usr/lib/libq.dylib,/usr/lib/libq.a,/usr/local/lib/libq.tbd,/usr/local/lib/libq.dylib,/usr/local/lib/libq.a a.o\t-lq a.o\n\
    /Library/Frameworks/Q.framework/Q.tbd,/Library/Frameworks/Q.framework/Q,/System/Library/Frameworks/Q.framework/Q.tbd,/System/Library/Frameworks/Q.framework/Q a.o\t-framework Q a.o\n\
    /S/d/libq.tbd,/S/d/libq.dylib,/S/d/libq.a,/d/libq.tbd,/d/libq.dylib,/d/libq.a,e/libq.tbd,e/libq.dylib,e/libq.a,/S/usr/lib/libq.tbd,/S/usr/lib/libq.dylib,/S/usr/lib/libq.a,/S/usr/local/lib/libq.tbd,/S/usr/local/lib/libq.dylib,/S/usr/local/lib/libq.a /S/f/Q.framework/Q.tbd,/S/f/Q.framework/Q,/f/Q.framework/Q.tbd,/f/Q.framework/Q,g/Q.framework/Q.tbd,g/Q.framework/Q,/S/Library/Frameworks/Q.framework/Q.tbd,/S/Library/Frameworks/Q.framework/Q,/S/System/Library/Frameworks/Q.framework/Q.tbd,/S/System/Library/Frameworks/Q.framework/Q\t-syslibroot /S -L/d -Le -F/f -Fg -lq -weak_framework Q\n\
    /a//libq.tbd,/a//libq.dylib,/a//libq.a,/a//libq.tbd,/a//libq.dylib,/a//libq.a,/usr/lib/libq.tbd,/usr/lib/libq.dylib,/usr/lib/libq.a,/usr/local/lib/libq.tbd,/usr/local/lib/libq.dylib,/usr/local/lib/libq.a\t-syslibroot  -L/a/ -lq\n\
";

fn arg_list(alloc: Global, text: &str) -> Result<ArgList, OutOfMemory> {
    let mut words = Items::new(alloc);
    if text.is_empty() {
        return Ok(words);
    }
    for word in text.split(' ') {
        words.push(Arg::new(String::from_str(alloc, word)?))?;
    }
    Ok(words)
}

fn add_list(text: &mut Vec<u8>, label: &[u8], list: &NameList) -> Result<(), OutOfMemory> {
    for name in list.as_slice() {
        text.extend_from_slice(label)?;
        text.extend_from_slice(name.as_slice())?;
    }
    Ok(())
}

fn add_text(text: &mut Vec<u8>, label: &[u8], value: &Option<Bytes>) -> Result<(), OutOfMemory> {
    if let Some(value) = value {
        text.extend_from_slice(label)?;
        text.extend_from_slice(value.as_slice())?;
    }
    Ok(())
}

fn add_switch(text: &mut Vec<u8>, label: &[u8], is_on: bool) -> Result<(), OutOfMemory> {
    if is_on {
        text.extend_from_slice(label)?;
    }
    Ok(())
}

fn add_switches(text: &mut Vec<u8>, command: &Command) -> Result<(), OutOfMemory> {
    add_switch(text, b" dylib", command.dylib)?;
    add_switch(text, b" all_load", command.all_load)?;
    add_switch(text, b" dead_strip", command.dead_strip)?;
    add_switch(text, b" dynamic", command.dynamic)?;
    add_switch(text, b" opcodes", command.opcodes)?;
    add_switch(text, b" fold", command.fold)?;
    add_switch(text, b" export_given", command.export_given)
}

fn add_lists(text: &mut Vec<u8>, command: &Command) -> Result<(), OutOfMemory> {
    add_list(text, b" u:", &command.roots)?;
    add_list(text, b" U:", &command.flats)?;
    add_list(text, b" rpath:", &command.rpaths)?;
    add_list(text, b" L:", &command.library_dirs)?;
    add_list(text, b" F:", &command.framework_dirs)?;
    add_list(text, b" list:", &command.export_files)?;
    add_list(text, b" export:", &command.exports)?;
    add_list(text, b" unlist:", &command.unexport_files)?;
    add_list(text, b" unexport:", &command.unexports)
}

fn add_inputs(text: &mut Vec<u8>, command: &Command) -> Result<(), OutOfMemory> {
    for input in command.inputs.as_slice() {
        let label: &[u8] = match input.form {
            InputForm::Path => b" path",
            InputForm::Library => b" library",
            InputForm::Framework => b" framework",
        };
        text.extend_from_slice(label)?;
        add_switch(text, b"+weak", input.weak)?;
        add_switch(text, b"+reexport", input.reexport)?;
        add_switch(text, b"+forced", input.forced)?;
        text.push(b':')?;
        text.extend_from_slice(input.value.as_slice())?;
    }
    Ok(())
}

// The texts, lists and switches of a command, those that are there.
fn shown(alloc: Global, command: &Command) -> Result<Vec<u8>, OutOfMemory> {
    let mut text = Vec::from_slice(alloc, b"to ")?;
    text.extend_from_slice(command.output.as_slice())?;
    text.push(b' ')?;
    text.extend_from_slice(command.entry.as_slice())?;
    text.push(b' ')?;
    text.extend_from_slice(command.install.as_slice())?;
    add_text(&mut text, b" root:", &command.syslibroot)?;
    add_text(&mut text, b" map:", &command.map)?;
    add_switches(&mut text, command)?;
    add_lists(&mut text, command)?;
    add_inputs(&mut text, command)?;
    Ok(text)
}

fn numbers(alloc: Global, line: &CommandLine) -> Result<Vec<u8>, OutOfMemory> {
    let command = &line.command;
    let (min, sdk) = (command.min, command.sdk);
    let (current, compatible) = (command.current, command.compatible);
    let (pad, threads) = (command.headerpad, line.threads);
    let (reach, made) = (command.reach, command.generate);
    let text = format!(in alloc;
        "{min} {sdk} {current} {compatible} {pad} {threads} {reach} {made}"
    )?;
    Ok(text.into_bytes())
}

// The paths of all inputs: a comma between those of one, and a space between inputs.
fn all_paths(alloc: Global, command: &Command) -> Result<Vec<u8>, OutOfMemory> {
    let mut text = Vec::new(alloc);
    for number in 0..command.inputs.len() {
        if number < 1 << 16 {
            if number > 0 {
                text.push(b' ')?;
            }
            let paths = paths_for(alloc, command, number as u32)?;
            add_joined(&mut text, &paths)?;
        }
    }
    Ok(text)
}

fn add_joined(text: &mut Vec<u8>, list: &NameList) -> Result<(), OutOfMemory> {
    for (at, name) in list.as_slice().iter().enumerate() {
        if at > 0 {
            text.push(b',')?;
        }
        text.extend_from_slice(name.as_slice())?;
    }
    Ok(())
}

// What of a command a row tells.
#[derive(Clone, Copy)]
enum Told {
    Texts,
    Numbers,
    Paths,
    Counts,
}

fn line_text(alloc: Global, told: Told, line: &CommandLine) -> Result<Vec<u8>, OutOfMemory> {
    match told {
        Told::Texts => shown(alloc, &line.command),
        Told::Numbers => numbers(alloc, line),
        Told::Paths => all_paths(alloc, &line.command),
        Told::Counts => counts(alloc, &line.command),
    }
}

fn counts(alloc: Global, command: &Command) -> Result<Vec<u8>, OutOfMemory> {
    let (inputs, folders) = (command.inputs.len(), command.library_dirs.len());
    Ok(format!(in alloc; "{inputs} {folders}")?.into_bytes())
}

// The number and the rule of the word at fault.
fn fault_text(alloc: Global, word: u64, rule: UsageRule) -> Result<Vec<u8>, OutOfMemory> {
    let rule = rule.as_str();
    Ok(format!(in alloc; "{word} {rule}")?.into_bytes())
}

// What is told of a command line, or its fault.
fn text_of(
    alloc: Global,
    told: Told,
    read: &Result<CommandLine, UsageFault>,
) -> Result<Vec<u8>, OutOfMemory> {
    match read {
        Ok(line) => line_text(alloc, told, line),
        Err(UsageFault::At { word, rule }) => fault_text(alloc, *word, *rule),
        Err(UsageFault::OutOfMemory) => Err(OutOfMemory),
    }
}

fn tells(
    alloc: Global,
    told: Told,
    read: &Result<CommandLine, UsageFault>,
    expected: &str,
) -> bool {
    match text_of(alloc, told, read) {
        Ok(text) => text.as_slice() == expected.as_bytes(),
        Err(_) => false,
    }
}

fn all_tell(alloc: Global, told: Told, words: &ArgList, expected: &str) -> bool {
    let read = read_words(alloc, Rows::All, words);
    tells(alloc, told, &read, expected)
}

fn link_tells(alloc: Global, told: Told, words: &ArgList, expected: &str) -> bool {
    let read = read_words(alloc, Rows::Libraries, words);
    tells(alloc, told, &read, expected)
}

// The names of a list with a comma between any two, or what the list isn't read for.
fn list_text(alloc: Global, bytes: &[u8]) -> Result<Vec<u8>, OutOfMemory> {
    let mut text = Vec::new(alloc);
    match read_list(alloc, bytes) {
        Ok(names) => add_joined(&mut text, &names)?,
        Err(ObjFault::Unsupported(Feature::Wildcard)) => text.extend_from_slice(b"wildcard")?,
        Err(_) => text.extend_from_slice(b"another fault")?,
    }
    Ok(text)
}

fn has_names(alloc: Global, bytes: &[u8], expected: &[u8]) -> Result<bool, OutOfMemory> {
    Ok(list_text(alloc, bytes)?.as_slice() == expected)
}

fn row_holds(alloc: Global, told: Told, row: &str) -> Result<bool, OutOfMemory> {
    let (expected, text) = row.split_once('\t').unwrap_or((row, ""));
    let words = arg_list(alloc, text)?;
    Ok(all_tell(alloc, told, &words, expected))
}

// The first row of which something else is told.
fn wrong_row(
    alloc: Global,
    told: Told,
    rows: &'static str,
) -> Result<Option<&'static str>, OutOfMemory> {
    for row in rows.lines() {
        if !row_holds(alloc, told, row)? {
            return Ok(Some(row));
        }
    }
    Ok(None)
}

fn link_holds(alloc: Global, row: &str) -> Result<bool, OutOfMemory> {
    let (expected, text) = row.split_once('\t').unwrap_or((row, ""));
    let words = arg_list(alloc, text)?;
    Ok(link_tells(alloc, Told::Texts, &words, expected))
}

// The first row of which something else is told where a link has some of the options alone.
fn wrong_link(alloc: Global) -> Result<Option<&'static str>, OutOfMemory> {
    for row in LINKED.lines() {
        if !link_holds(alloc, row)? {
            return Ok(Some(row));
        }
    }
    Ok(None)
}

// The first row of which other paths are told.
fn sdk_hello(alloc: Global) -> Result<Option<&'static str>, OutOfMemory> {
    wrong_row(alloc, Told::Paths, PATHS)
}

// A list, and its names with a comma between any two.
const LISTS: [(&[u8], &[u8]); 7] = [
    (b"", b""),
    (b"_a\n_b", b"_a,_b"),
    (
        b"\r\n _a \t\r\n\x0b_b c\x0c\n\n# no\n \t#neither\n#\n_d#",
        b"_a,_b c,_d#",
    ),
    (b"_a\n_b*\n", b"wildcard"),
    (b"?\n", b"wildcard"),
    (b"_a\n_[b\n", b"wildcard"),
    (b"#*?[\n_a", b"_a"),
];

fn many_words(alloc: Global, count: usize) -> Result<ArgList, OutOfMemory> {
    let mut words = Items::new(alloc);
    for _ in 0..count {
        words.push(Arg::new(String::from_str(alloc, "a.o")?))?;
        words.push(Arg::new(String::from_str(alloc, "-L/d")?))?;
    }
    Ok(words)
}

fn many_lines(alloc: Global, count: usize) -> Result<bool, OutOfMemory> {
    let mut bytes = Vec::new(alloc);
    for _ in 0..count {
        bytes.extend_from_slice(b" _name \r\n")?;
    }
    match read_list(alloc, bytes.as_slice()) {
        Ok(names) => Ok(names.len() == count),
        Err(_) => Ok(false),
    }
}

fn many_are_counted(alloc: Global) -> Result<bool, OutOfMemory> {
    let words = many_words(alloc, 5000)?;
    Ok(all_tell(alloc, Told::Counts, &words, "5000 5000"))
}

// Command lines by some options and by all, the paths of inputs, lists, and thousands of words and of lines.
#[test]
fn usage_words(rt: HostRuntime) -> Result<(), Fail> {
    let alloc = rt.alloc();
    for wrong in [
        wrong_link(alloc)?,
        wrong_row(alloc, Told::Texts, FAULTS)?,
        wrong_row(alloc, Told::Texts, COMMANDS)?,
        wrong_row(alloc, Told::Numbers, NUMBERS)?,
        sdk_hello(alloc)?,
    ] {
        let row = wrong.unwrap_or("");
        assert!(rt; wrong.is_none(), "{row}");
    }
    for (row, (bytes, expected)) in LISTS.iter().enumerate() {
        assert!(rt; has_names(alloc, bytes, expected)?, "in row {row}");
    }
    assert!(rt; many_are_counted(alloc)?);
    assert!(rt; many_lines(alloc, 5000)?);
    Ok(())
}
