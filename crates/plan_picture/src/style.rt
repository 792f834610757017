//! What every picture has: its colours, the heads of its arrows, and the headings of its parts.
//!
//! The eight colours are those of Okabe and Ito, which people with any colour vision tell apart. On white a brown stands for their yellow, which
//! does not show there, and on black a white for their black. The lines of ways are whole or broken in one of three ways, by turns of eight
//! vehicles: whole for vehicles 1 to 7, and again for 32 to 39. The numbers of customers have an outline in the colour of the ground, so that
//! they can be read where they lie over lines.

/// Colours and widths, by class, on a light background and on a dark one, and the heads of the arrows.
pub const STYLE: &str = "\
<style>
.b{fill:#fff}
text{fill:#222;font-family:sans-serif;font-size:125px}
.k{font-size:260px;font-weight:bold}
.m{font-size:150px}
.e{text-anchor:end}
.y{text-anchor:middle}
.n{font-size:100px;paint-order:stroke;stroke:#fff;stroke-width:30px;stroke-linejoin:round}
.g{fill:none;stroke:#ccc;stroke-width:8}
.d{fill:#fff;fill-opacity:.7;stroke:#222;stroke-width:44}
.s{stroke:#fff;stroke-width:8}
.o{fill:none;stroke:#777;stroke-width:16}
.l{fill:none;stroke-width:22}
.t{fill:none;stroke-width:26}
.r{fill:none;stroke-width:60}
.q{fill:none;stroke-width:12;stroke-dasharray:24 24}
.v{fill:none;stroke-width:20}
.h{fill:#f0f0f0}
.w{fill:#c4c4c4}
.x{stroke:#888;stroke-width:6}
.p1{stroke-dasharray:70 35}
.p2{stroke-dasharray:20 30}
.p3{stroke-dasharray:110 30 20 30}
.c0{stroke:#0072b2}.f0{fill:#0072b2}.l.c0{marker-mid:url(#a0)}
.c1{stroke:#d55e00}.f1{fill:#d55e00}.l.c1{marker-mid:url(#a1)}
.c2{stroke:#009e73}.f2{fill:#009e73}.l.c2{marker-mid:url(#a2)}
.c3{stroke:#cc79a7}.f3{fill:#cc79a7}.l.c3{marker-mid:url(#a3)}
.c4{stroke:#e69f00}.f4{fill:#e69f00}.l.c4{marker-mid:url(#a4)}
.c5{stroke:#56b4e9}.f5{fill:#56b4e9}.l.c5{marker-mid:url(#a5)}
.c6{stroke:#6b3e12}.f6{fill:#6b3e12}.l.c6{marker-mid:url(#a6)}
.c7{stroke:#000}.f7{fill:#000}.l.c7{marker-mid:url(#a7)}
@media (prefers-color-scheme:dark){
.b{fill:#151515}
text{fill:#ddd}
.g{stroke:#444}
.d{fill:#151515;stroke:#ddd}
.s{stroke:#151515}
.n{stroke:#151515}
.o{stroke:#aaa}
.h{fill:#222}
.w{fill:#4c4c4c}
.c6{stroke:#f0e442}.f6{fill:#f0e442}
.c7{stroke:#fff}.f7{fill:#fff}
}
</style>
<defs>
<path id=\"r\" d=\"M6800 -45H7220\"/>
<path id=\"h\" class=\"h\" d=\"M1600 10H12400V150H1600Z\"/>
<marker id=\"a0\" class=\"f0\" viewBox=\"0 0 10 10\" refX=\"5\" refY=\"5\" markerUnits=\"userSpaceOnUse\" markerWidth=\"110\" markerHeight=\"110\" orient=\"auto\"><path d=\"M0 0L10 5L0 10Z\"/></marker>
<marker id=\"a1\" class=\"f1\" viewBox=\"0 0 10 10\" refX=\"5\" refY=\"5\" markerUnits=\"userSpaceOnUse\" markerWidth=\"110\" markerHeight=\"110\" orient=\"auto\"><path d=\"M0 0L10 5L0 10Z\"/></marker>
<marker id=\"a2\" class=\"f2\" viewBox=\"0 0 10 10\" refX=\"5\" refY=\"5\" markerUnits=\"userSpaceOnUse\" markerWidth=\"110\" markerHeight=\"110\" orient=\"auto\"><path d=\"M0 0L10 5L0 10Z\"/></marker>
<marker id=\"a3\" class=\"f3\" viewBox=\"0 0 10 10\" refX=\"5\" refY=\"5\" markerUnits=\"userSpaceOnUse\" markerWidth=\"110\" markerHeight=\"110\" orient=\"auto\"><path d=\"M0 0L10 5L0 10Z\"/></marker>
<marker id=\"a4\" class=\"f4\" viewBox=\"0 0 10 10\" refX=\"5\" refY=\"5\" markerUnits=\"userSpaceOnUse\" markerWidth=\"110\" markerHeight=\"110\" orient=\"auto\"><path d=\"M0 0L10 5L0 10Z\"/></marker>
<marker id=\"a5\" class=\"f5\" viewBox=\"0 0 10 10\" refX=\"5\" refY=\"5\" markerUnits=\"userSpaceOnUse\" markerWidth=\"110\" markerHeight=\"110\" orient=\"auto\"><path d=\"M0 0L10 5L0 10Z\"/></marker>
<marker id=\"a6\" class=\"f6\" viewBox=\"0 0 10 10\" refX=\"5\" refY=\"5\" markerUnits=\"userSpaceOnUse\" markerWidth=\"110\" markerHeight=\"110\" orient=\"auto\"><path d=\"M0 0L10 5L0 10Z\"/></marker>
<marker id=\"a7\" class=\"f7\" viewBox=\"0 0 10 10\" refX=\"5\" refY=\"5\" markerUnits=\"userSpaceOnUse\" markerWidth=\"110\" markerHeight=\"110\" orient=\"auto\"><path d=\"M0 0L10 5L0 10Z\"/></marker>
</defs>
<rect class=\"b\" width=\"100%\" height=\"100%\"/>
";

/// The border of the map, and the headings of the table.
pub const HEADINGS: &str = "\
<rect class=\"g\" x=\"200\" y=\"900\" width=\"6400\" height=\"6400\"/>
<text class=\"e\" x=\"7650\" y=\"1080\">vehicle</text>
<text class=\"e\" x=\"8350\" y=\"1080\">stops</text>
<text class=\"e\" x=\"9500\" y=\"1080\">load</text>
<text class=\"e\" x=\"10450\" y=\"1080\">start</text>
<text class=\"e\" x=\"11450\" y=\"1080\">return</text>
<text class=\"e\" x=\"12600\" y=\"1080\">distance</text>
";
